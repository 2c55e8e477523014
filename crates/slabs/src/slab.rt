// Slabs of ports: a slab comes from the chain of just its size if that has one, and from the port mark if not, and goes back to the front of
// that chain.
ghost use Rattle.std.specs.Prelude.{◌≡◌, ◌+◌, ◌≤◌, ◌<◌, length};
ghost use Rattle.slabs.specs.Slab.{at_hand, CanTake, TookSlab, filled, owners_written, CanFree, FreedSlab};

use crate::counters::Counters;
use crate::links;
use crate::port_entry::{Direction, owner_word};

// Whether a slab of this size can be had. `room` is the length of the port tables.
#[tactic(auto, unfolding(crate::specs::Slab::at_hand))]
pub fn at_hand(heads: &[u32], mark: u32, room: usize, size: u32) -> bool
    requires { (1 ≤ size) × (size ≤ length heads.now) }
    ensures { result ≡ at_hand heads.now mark room size }
{
    heads[(size - 1) as usize] != 0 || mark as usize + size as usize <= room
}

// Takes a slab of this size, and gives its first port and the counters after it.
#[tactic(auto, unfolding(crate::specs::Slab::at_hand, crate::specs::Slab::taken_first, crate::specs::Slab::taken_mark, crate::specs::Slab::taken_links, crate::specs::Slab::taken_heads))]
pub fn take_slab(
    links: &mut [u32],
    heads: &mut [u32],
    counters: Counters,
    size: u32,
) -> (u32, Counters)
    requires { CanTake links.old heads.old counters size }
    ensures { TookSlab links.old heads.old counters size links.new heads.new result.0 result.1 }
{
    let chain = (size - 1) as usize;
    let Some(first) = heads[chain].checked_sub(1) else {
        return (counters.portmark, counters.mark_raised(size));
    };
    heads[chain] = links[first as usize];
    links[first as usize] = 0;
    (first, counters)
}

// Writes one word to n places of a table from `first` on. It has the whole table, for it promises that the others stay.
#[tactic(auto, unfolding(crate::specs::Slab::filled))]
pub fn fill(table: &mut [u32], first: usize, n: usize, word: u32)
    requires { first + n ≤ length table.old }
    ensures { table.new ≡ filled table.old first n word }
{
    // Place by place, which the compiler turns into whole vectors of words. std's `fill` writes the last place by itself, so that the
    // owner words of a step of eight ports are no vector.
    for i in 0..n {
        table[first + i] = word;
    }
}

// Writes the owner words of a node's inlets and outlets, from `first` on. The three are any numbers; a `NodeMeta` would ask more.
#[tactic(auto, unfolding(crate::specs::Slab::owners_written))]
pub fn write_owners(owners: &mut [u32], node: u32, first: usize, inlets: usize, outlets: usize)
    requires { (node < 65536) × (first + inlets + outlets ≤ length owners.old) }
    ensures { owners.new ≡ owners_written owners.old node first inlets outlets }
{
    let inlet = owner_word(node, Direction::Incoming);
    let outlet = owner_word(node, Direction::Outgoing);
    fill(owners, first, inlets, inlet);
    fill(owners, first + inlets, outlets, outlet);
}

// Frees a slab: cuts its wires, clears its owner words and puts it at the head of its chain. Says how many wires it cut.
#[tactic(auto, unfolding(crate::specs::Slab::freed_links, crate::specs::Slab::freed_owners, crate::specs::Slab::freed_heads))]
pub fn free_slab(
    links: &mut [u32],
    owners: &mut [u32],
    heads: &mut [u32],
    first: u32,
    size: u32,
) -> u32
    requires { CanFree links.old owners.old heads.old first size }
    ensures { FreedSlab links.old owners.old heads.old first size links.new owners.new heads.new result }
{
    let from = first as usize;
    let wires = links::cut_run(links, from, size as usize);
    fill(owners, from, size as usize, 0);
    let chain = (size - 1) as usize;
    links[from] = heads[chain];
    heads[chain] = first + 1;
    wires
}
