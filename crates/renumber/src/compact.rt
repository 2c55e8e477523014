// The two compactions, calls 7 and 8.
ghost use Rattle.std.specs.Prelude.{◌≡◌, ◌+◌, ◌*◌, ◌≤◌, ◌<◌, length};
ghost use Rattle.slabs.specs.NodeEntry.{width, set_entry};
ghost use Rattle.slabs.specs.Slab.{owners_written};
ghost use Rattle.slabs.specs.declared.node_entry.NodeEntry.TheVariants.{Node};
ghost use Rattle.edits.specs.Store.{store_in, SameMemory};
ghost use Rattle.edits.specs.Fit.{SlotsFit, Fit};
ghost use Rattle.edits.specs.Counts.{live_slots, live_ports};
ghost use Rattle.renumber.specs.Records.{later, SameLog};
ghost use Rattle.renumber.specs.Compact.{compact_answer, followed, slab_dropped, slabs_dropped};
ghost use Rattle.renumber.specs.Packing.{CanPackNodes, PackedNodes, CompactedNodes, CanPackPorts, PackedPorts, CompactedPorts};
ghost use Rattle.renumber.specs.Room.{RecordRoom};

use crate::log::{Kind, Log};
use crate::moves;
use edits::answer::{Answer, Refusal};
use edits::store::Tables;
use slabs::counters::Counters;
use slabs::node_entry::{NodeEntry, NodeMeta, WIDTH};

// What both answer: as many records as there are nodes, or ports.
#[tactic(auto, unfolding(crate::specs::Compact::compact_answer))]
pub fn compact_answer(count: u32, left: usize) -> Answer
    ensures { result ≡ compact_answer count left }
{
    if left < count as usize {
        return Err(Refusal::LogFull);
    }
    Ok((count, 0, 0))
}

// Carries one live slot down to the slot `new`, its owner words with it. A swap does the same, but
// writes the slot before its cases part: one function for both would take the write into each case. Here and below, a function has the
// tables that it changes and no other, so that the others stay is in its type.
fn move_node(slots: &mut [u32], owners: &mut [u32], new: u32, meta: NodeMeta)
    requires { (width * new + width ≤ length slots.old) × (new < 65536) × (meta.inlets ≤ 16384) × (meta.first + meta.inlets + meta.outlets ≤ length owners.old) }
    ensures { (slots.new ≡ set_entry slots.old new (Node meta)) × (owners.new ≡ owners_written owners.old new meta.first meta.inlets meta.outlets) }
{
    slabs::node_entry::write_slot(slots, new as usize, NodeEntry::Node(meta));
    slabs::slab::write_owners(
        owners,
        new,
        meta.first as usize,
        meta.inlets as usize,
        meta.outlets as usize,
    );
}

// Live slots below the mark move down in order, each with a record; says how many there are.
#[tactic(auto, using(crate::proofs::PackLaws::node_laws))]
fn pack_nodes(slots: &mut [u32], owners: &mut [u32], log: &mut Log<'_>, mark: u32) -> u32
    requires { CanPackNodes slots.old owners.old log.old.words.now mark log.old.to }
    ensures memory { SameLog log.old log.new }
    ensures words { PackedNodes slots.old owners.old log.old.words.now mark log.old.to slots.new owners.new log.new.words.now result }
    ensures next { log.new.to ≡ later log.old.to result }
{
    let mut new: u32 = 0;
    for k in 0..mark {
        if let NodeEntry::Node(meta) = slabs::node_entry::read_slot(slots, k as usize) {
            move_node(slots, owners, new, meta);
            log.write(Kind::NodeMoved, k, new);
            new += 1;
        }
    }
    new
}

// Call 7: what is left of the slots is cleared, and the free chain is emptied.
#[tactic(auto, using(crate::proofs::PackLaws::node_laws), unfolding(crate::specs::Compact::compacted_slots))]
pub fn compact_nodes(
    slots: &mut [u32],
    owners: &mut [u32],
    log: &mut Log<'_>,
    counters: Counters,
) -> Counters
    requires { CanPackNodes slots.old owners.old log.old.words.now counters.nodemark log.old.to }
    ensures memory { SameLog log.old log.new }
    ensures words { CompactedNodes slots.old owners.old log.old.words.now counters log.old.to slots.new owners.new log.new.words.now result }
    ensures next { log.new.to ≡ later log.old.to (live_slots slots.old counters.nodemark) }
{
    let mark = counters.nodemark;
    let live = pack_nodes(slots, owners, log, mark);
    slabs::slab::fill(
        slots,
        WIDTH * live as usize,
        WIDTH * (mark - live) as usize,
        0,
    );
    counters.nodes_packed()
}

// Where a slot's first port has moved, the slot follows and gives up its spare capacity.
#[tactic(auto, unfolding(crate::specs::Compact::followed))]
fn follow_first(slots: &mut [u32], node: u32, old: u32, new: u32)
    requires { (width * node + width ≤ length slots.old) × SlotsFit slots.old (node + 1) 32768 1048576 }
    ensures { slots.new ≡ followed slots.old node old new }
{
    if let NodeEntry::Node(meta) = slabs::node_entry::read_slot(slots, node as usize)
        && meta.first == old
    {
        let after = NodeMeta {
            first: new,
            capacity: meta.inlets + meta.outlets,
            ..meta
        };
        slabs::node_entry::write_slot(slots, node as usize, NodeEntry::Node(after));
    }
}

// Live ports below the mark move down in order, each with a record; says how many there are.
#[tactic(auto, using(crate::proofs::PackLaws::port_laws))]
fn pack_ports(
    slots: &mut [u32],
    links: &mut [u32],
    owners: &mut [u32],
    log: &mut Log<'_>,
    mark: u32,
) -> u32
    requires { CanPackPorts slots.old links.old owners.old log.old.words.now mark log.old.to }
    ensures memory { SameLog log.old log.new }
    ensures words { PackedPorts slots.old links.old owners.old log.old.words.now mark log.old.to slots.new links.new owners.new log.new.words.now result }
    ensures next { log.new.to ≡ later log.old.to result }
{
    let mut new: u32 = 0;
    for p in 0..mark {
        let word = owners[p as usize];
        if let Some(port) = slabs::port_entry::port_entry(word) {
            moves::move_port(links, p, new);
            owners[new as usize] = word;
            follow_first(slots, port.node, p, new);
            log.write(Kind::PortMoved, p, new);
            new += 1;
        }
    }
    new
}

// A live step without ports has no slab any more. Written apart from `follow_first`, for a closure over the entry would have to say in
// each contract what it does to which.
#[tactic(auto, unfolding(crate::specs::Compact::slab_dropped))]
fn drop_slab(slots: &mut [u32], slot: u32)
    requires { (width * slot + width ≤ length slots.old) × SlotsFit slots.old (slot + 1) 32768 1048576 }
    ensures { slots.new ≡ slab_dropped slots.old slot }
{
    if let NodeEntry::Node(meta) = slabs::node_entry::read_slot(slots, slot as usize)
        && meta.inlets + meta.outlets == 0
    {
        let after = NodeMeta {
            first: 0,
            capacity: 0,
            ..meta
        };
        slabs::node_entry::write_slot(slots, slot as usize, NodeEntry::Node(after));
    }
}

// So for every slot below the mark. A clause says that they lie in the table, for `Slots` is of a table that nobody changes.
#[tactic(auto, unfolding(crate::specs::Compact::slabs_dropped))]
fn drop_slabs(slots: &mut [u32], mark: u32)
    requires { (width * mark ≤ length slots.old) × SlotsFit slots.old mark 32768 1048576 }
    ensures { slots.new ≡ slabs_dropped slots.old mark }
{
    for slot in 0..mark {
        drop_slab(slots, slot);
    }
}

// Call 8: live ports move down in order, spare capacity goes, and all chains of slabs are emptied.
#[tactic(auto, using(crate::proofs::PackLaws::port_laws, slabs::proofs::FillLaws::fill_whole), unfolding(crate::specs::Compact::ports_compacted, crate::specs::Compact::emptied_above))]
pub fn compact_ports(tables: &mut Tables<'_>, log: &mut Log<'_>, counters: Counters) -> Counters
    requires { Fit (store_in tables.old counters) × RecordRoom log.old.words.now log.old.to counters.ports }
    ensures memory { SameMemory tables.old tables.new × SameLog log.old log.new }
    ensures words { CompactedPorts (store_in tables.old counters) log.old.words.now log.old.to tables.new.slots.now tables.new.links.now tables.new.owners.now tables.new.heads.now log.new.words.now result }
    ensures next { log.new.to ≡ later log.old.to (live_ports tables.old.owners.now counters.portmark) }
{
    let mark = counters.portmark;
    let ports = pack_ports(tables.slots, tables.links, tables.owners, log, mark);
    drop_slabs(tables.slots, counters.nodemark);
    slabs::slab::fill(tables.links, ports as usize, (mark - ports) as usize, 0);
    slabs::slab::fill(tables.owners, ports as usize, (mark - ports) as usize, 0);
    tables.heads.fill(0);
    counters.ports_packed()
}
