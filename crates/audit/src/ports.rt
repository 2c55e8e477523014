// Rules 4 to 7 over the ports: every port below the mark is claimed once, by a live slot or by a free slab.
ghost use Rattle.std.specs.Prelude.{◌≡◌, ◌+◌, ◌*◌, ◌≤◌, ◌<◌, length, get_or};
ghost use Rattle.slabs.specs.PortEntry.{Live, direction_word, direction_of};
ghost use Rattle.slabs.specs.NodeEntry.{width};
ghost use Rattle.sound.specs.Sound.{LiveSlot};
ghost use Rattle.audit.specs.Decides.{Decides};
ghost use Rattle.audit.specs.Parts.{CanClaim, SlabClaimed, HeldWords, HeldSlab, FreeSlab, SlotsHold, BlankFrom, HeldClaimed, Tally, ChainClaimed, FreeClaimed, TiledHolds, MateHolds, PortsHold};

use crate::words;
use edits::below::Ports;
use edits::store::View;
use slabs::counters::Counters;
use slabs::node_entry::{NodeEntry, NodeMeta, read_slot};
use slabs::port_entry::{Direction, owner_word, port_entry};

// The words of a live slot's slab: the owner words of its inlets and outlets, and zeros at its spare ports.
fn held_words_hold(ports: Ports<'_>, node: u32, meta: NodeMeta) -> bool
    requires { (meta.first + meta.capacity ≤ ports.mark) × (meta.inlets + meta.outlets ≤ meta.capacity) × (node < 65536) }
    ensures { Decides result (HeldWords ports.entry.links.now ports.entry.owners.now node meta) }
{
    let first = meta.first as usize;
    let inlets = meta.inlets as usize;
    let outlets = meta.outlets as usize;
    let used = inlets + outlets;
    let spare = meta.capacity as usize - used;
    let inlet_word = owner_word(node, Direction::Incoming);
    let outlet_word = owner_word(node, Direction::Outgoing);
    words::run_is(ports.owners, first, inlets, inlet_word)
        && words::run_is(ports.owners, first + inlets, outlets, outlet_word)
        && words::run_is(ports.owners, first + used, spare, 0)
        && words::run_is(ports.links, first + used, spare, 0)
}

// The slab of a live slot: inside the mark, claimed, its owner words right, its spare ports without links.
// The scratch is written, here and below, and so is no part of `Ports`, which only looks.
fn held_slab_holds(ports: Ports<'_>, scratch: &mut [u32], node: u32, meta: NodeMeta) -> bool
    requires { (ports.mark ≤ length scratch.old) × (ports.mark ≤ 1048576) × (node < 65536) × LiveSlot 32768 meta }
    ensures { SlabClaimed (HeldSlab ports.entry.links.now ports.entry.owners.now ports.entry.mark node meta) scratch.old meta.first meta.capacity scratch.new result }
{
    meta.capacity <= ports.mark
        && meta.first <= ports.mark - meta.capacity
        && words::claim(scratch, meta.first as usize, meta.capacity as usize)
        && held_words_hold(ports, node, meta)
}

// A free slab: inside the mark, claimed, nobody's, and without links but for its chain word. It begins with the tests of the slab above;
// a function of the three would have to say all that `claim` says once more.
fn free_slab_holds(ports: Ports<'_>, scratch: &mut [u32], first: u32, size: u32) -> bool
    requires { (ports.mark ≤ length scratch.old) × (ports.mark ≤ 1048576) × (1 ≤ size) }
    ensures { SlabClaimed (FreeSlab ports.entry.links.now ports.entry.owners.now ports.entry.mark first size) scratch.old first size scratch.new result }
{
    size <= ports.mark
        && first <= ports.mark - size
        && words::claim(scratch, first as usize, size as usize)
        && words::run_is(ports.owners, first as usize, size as usize, 0)
        && words::run_is(ports.links, first as usize + 1, size as usize - 1, 0)
}

// The slabs of all live slots: how many ports they claim, if all hold and none meets another.
fn held_slabs(view: View<'_>, scratch: &mut [u32], counters: Counters) -> Option<u32>
    requires { CanClaim view.links.now view.owners.now scratch.old counters.portmark × (width * counters.nodemark ≤ length view.slots.now) × (counters.nodemark ≤ 65536) × SlotsHold view.slots.now 32768 counters.nodemark × BlankFrom scratch.old 0 }
    ensures { HeldClaimed view.entry.slots.now view.entry.links.now view.entry.owners.now scratch.old counters scratch.new result }
{
    let below = Ports {
        owners: view.owners,
        links: view.links,
        mark: counters.portmark,
    };
    let mut ports = 0;
    for node in 0..counters.nodemark {
        if let NodeEntry::Node(meta) = read_slot(view.slots, node as usize) {
            if !held_slab_holds(below, scratch, node, meta) {
                return None;
            }
            ports += meta.capacity;
        }
    }
    Some(ports)
}

// The chain of one size, from its head word. Each slab claims ports that nobody has, so the walk ends.
#[inline(never)]
fn free_chain(
    below: Ports<'_>,
    scratch: &mut [u32],
    head: u32,
    size: u32,
    claimed: u32,
) -> Option<u32>
    requires { (below.mark ≤ length scratch.old) × (below.mark ≤ 1048576) × (1 ≤ size) × Tally scratch.old below.mark claimed }
    ensures { ChainClaimed below.entry.links.now below.entry.owners.now scratch.old below.entry.mark head size scratch.new result }
{
    let mut ports = claimed;
    let mut word = head;
    // The chain's next word is read once its slab is claimed: an iterator of the chain would read the words before they are known to
    // lie inside.
    while word != 0 {
        let first = word - 1;
        if !free_slab_holds(below, scratch, first, size) {
            return None;
        }
        ports += size;
        word = below.links[first as usize];
    }
    Some(ports)
}

// The chains of all sizes.
fn free_slabs(view: View<'_>, scratch: &mut [u32], mark: u32, claimed: u32) -> Option<u32>
    requires { CanClaim view.links.now view.owners.now scratch.old mark × (length view.heads.now ≤ 32768) × Tally scratch.old mark claimed }
    ensures { FreeClaimed view.entry.links.now view.entry.owners.now view.entry.heads.now scratch.old mark (length view.entry.heads.now) scratch.new result }
{
    let below = Ports {
        owners: view.owners,
        links: view.links,
        mark,
    };
    let mut ports = claimed;
    for (index, head) in view.heads.iter().enumerate() {
        // Most sizes have no free slab. They are passed by here, before a call, so that the loop over them stays small.
        if *head == 0 {
            continue;
        }
        ports = free_chain(below, scratch, *head, index as u32 + 1, ports)?;
    }
    Some(ports)
}

// Rules 4 and 5, and rule 6 for ports that are not live. The mark is that of the counters, so the clauses here and in the two functions
// above speak of a `View` and of them.
pub fn tiled(view: View<'_>, scratch: &mut [u32], counters: Counters) -> bool
    requires { CanClaim view.links.now view.owners.now scratch.old counters.portmark × (width * counters.nodemark ≤ length view.slots.now) × (counters.nodemark ≤ 65536) × (length view.heads.now ≤ 32768) × SlotsHold view.slots.now 32768 counters.nodemark × BlankFrom scratch.old 0 }
    ensures { Decides result (TiledHolds view.entry.slots.now view.entry.links.now view.entry.owners.now view.entry.heads.now counters) }
{
    let Some(held) = held_slabs(view, scratch, counters) else {
        return false;
    };
    free_slabs(view, scratch, counters.portmark, held) == Some(counters.portmark)
}

// Whether an owner word is of a live port that does not face this way.
fn faces_away(owner: u32, facing: Direction) -> bool
    ensures { Decides result ((owner ≡ 0 → ⊥) × (direction_word facing ≡ direction_of owner → ⊥)) }
{
    match port_entry(owner) {
        Some(port) => port.direction != facing,
        None => false,
    }
}

// Rule 6 for one live port: its link word is 0 or names its mate.
fn mate_holds(ports: Ports<'_>, port: u32, direction: Direction) -> bool
    requires { (ports.mark ≤ 1048576) × (port < ports.mark) × Live ports.owners.now port × (direction_word direction ≡ direction_of (get_or ports.owners.now port 0)) × BlankFrom ports.owners.now ports.mark }
    ensures { Decides result (MateHolds ports.entry.links.now ports.entry.owners.now port) }
{
    let Some(mate) = ports.links[port as usize].checked_sub(1) else {
        return true;
    };
    mate < ports.mark
        && faces_away(ports.owners[mate as usize], direction)
        && ports.links[mate as usize] == port + 1
}

// Rule 6 for the live ports, and rule 7's counts of ports and links. It takes the counters, which have the mark: in a `Ports` beside them
// it would stand twice.
pub fn ports_hold(links: &[u32], owners: &[u32], counters: Counters) -> bool
    requires { (counters.portmark ≤ length links.now) × (counters.portmark ≤ length owners.now) × (counters.portmark ≤ 1048576) × BlankFrom owners.now counters.portmark }
    ensures { Decides result (PortsHold links.now owners.now counters) }
{
    let below = Ports {
        owners,
        links,
        mark: counters.portmark,
    };
    let mut ports = 0;
    let mut pairs = 0;
    for port in 0..counters.portmark {
        if let Some(meta) = port_entry(owners[port as usize]) {
            if !mate_holds(below, port, meta.direction) {
                return false;
            }
            ports += 1;
            if links[port as usize] != 0 {
                pairs += u32::from(meta.direction);
            }
        }
    }
    counters.ports == ports && counters.links == pairs
}
