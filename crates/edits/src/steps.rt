// Add and remove, calls 1 and 2.
ghost use Rattle.std.specs.Prelude.{◌≡◌, ◌+◌, ◌≤◌, ◌<◌, length};
ghost use Rattle.slabs.specs.NodeEntry.{node_entry};
ghost use Rattle.slabs.specs.declared.node_entry.NodeEntry.TheVariants.{Node};
ghost use Rattle.edits.specs.Store.{store_in, SameMemory};
ghost use Rattle.edits.specs.Steps.{new_slab_at_hand, add_answer, added, removed, CanTakePorts, TookPorts};
ghost use Rattle.edits.specs.Fit.{Fit, CanAdd, StoreIn};

use crate::answer::{Answer, Refusal};
use crate::free_slots;
use crate::store::Tables;
use slabs::counters::Counters;
use slabs::node_entry::{NodeEntry, NodeMeta};

// The most inlets, and the most outlets, of a step.
pub const MOST: u32 = 16384;

// Whether a slab for so many ports can be had. None is needed for 0.
#[tactic(auto, unfolding(crate::specs::Steps::new_slab_at_hand))]
fn new_slab_at_hand(heads: &[u32], mark: u32, room: usize, total: u32) -> bool
    requires { total ≤ length heads.now }
    ensures { result ≡ new_slab_at_hand heads.now mark room total }
{
    total == 0 || slabs::slab::at_hand(heads, mark, room, total)
}

// What call 1 answers. `room` is the length of the port tables, and any number here, so it takes no `View`.
#[tactic(auto, unfolding(crate::specs::Steps::add_answer))]
pub fn add_answer(
    slots: &[u32],
    room: usize,
    heads: &[u32],
    counters: Counters,
    inlets: u32,
    outlets: u32,
) -> Answer
    ensures { result ≡ add_answer slots.now room heads.now counters inlets outlets }
{
    if MOST < inlets || MOST < outlets {
        return Err(Refusal::TooManyPorts);
    }
    let total = inlets + outlets;
    if heads.len() < total as usize {
        return Err(Refusal::SlabTooLarge);
    }
    if !free_slots::slot_at_hand(slots, counters) {
        return Err(Refusal::NoSlot);
    }
    if !new_slab_at_hand(heads, counters.portmark, room, total) {
        return Err(Refusal::NoSlab);
    }
    Ok((free_slots::next_slot(counters), 0, 0))
}

// The slab of a new step, with its owner words: none where it has no ports. It has the tables that it changes and not the slots.
#[tactic(auto, unfolding(crate::specs::Steps::new_slab_at_hand, crate::specs::Steps::new_first, crate::specs::Steps::new_links, crate::specs::Steps::new_heads, crate::specs::Steps::new_mark, slabs::specs::Slab::owners_written, slabs::specs::Slab::filled))]
fn take_ports(
    links: &mut [u32],
    owners: &mut [u32],
    heads: &mut [u32],
    counters: Counters,
    node: u32,
    inlets: u32,
    outlets: u32,
) -> (u32, Counters)
    requires { CanTakePorts links.old owners.old heads.old counters node inlets outlets }
    ensures { TookPorts links.old owners.old heads.old counters node inlets outlets links.new owners.new heads.new result.0 result.1 }
{
    let total = inlets + outlets;
    if total == 0 {
        return (0, counters);
    }
    let (first, after) = slabs::slab::take_slab(links, heads, counters, total);
    slabs::slab::write_owners(
        owners,
        node,
        first as usize,
        inlets as usize,
        outlets as usize,
    );
    (first, after)
}

// A new step takes a slot and, where it has ports, a slab of just as many.
#[tactic(auto, using(crate::proofs::TakeLaws::next_inside, crate::proofs::CountLaws::live_slots_le, crate::proofs::CountLaws::live_ports_le), unfolding(crate::specs::Steps::added))]
pub fn add(tables: &mut Tables<'_>, counters: Counters, inlets: u32, outlets: u32) -> Counters
    requires { Fit (store_in tables.old counters) × CanAdd (store_in tables.old counters) inlets outlets }
    ensures memory { SameMemory tables.old tables.new }
    ensures store { StoreIn (added (store_in tables.old counters) inlets outlets) tables.new result }
{
    let (node, marked) = free_slots::take_slot(tables.slots, counters);
    let (first, after) = take_ports(
        tables.links,
        tables.owners,
        tables.heads,
        marked,
        node,
        inlets,
        outlets,
    );
    let meta = NodeMeta {
        first,
        inlets,
        outlets,
        capacity: inlets + outlets,
    };
    slabs::node_entry::write_slot(tables.slots, node as usize, NodeEntry::Node(meta));
    after.node_counted(inlets + outlets)
}

// A removed step's slot becomes the head of the free chain, and its slab is freed with all its wires.
#[tactic(auto, unfolding(crate::specs::Steps::removed, crate::specs::Steps::removed_links, crate::specs::Steps::removed_owners, crate::specs::Steps::removed_heads, crate::specs::Steps::removed_counters))]
pub fn remove(tables: &mut Tables<'_>, counters: Counters, node: u32, meta: NodeMeta) -> Counters
    requires { Fit (store_in tables.old counters) × (node < counters.nodemark) × (node_entry tables.old.slots.now node ≡ Node meta) }
    ensures memory { SameMemory tables.old tables.new }
    ensures store { StoreIn (removed (store_in tables.old counters) node meta) tables.new result }
{
    let after = free_slots::free_slot(tables.slots, counters, node).node_uncounted();
    if meta.capacity == 0 {
        return after;
    }
    let wires = slabs::slab::free_slab(
        tables.links,
        tables.owners,
        tables.heads,
        meta.first,
        meta.capacity,
    );
    after.slab_freed(meta.inlets + meta.outlets, wires)
}
