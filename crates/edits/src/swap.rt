// Swap, call 6: two slots exchange what they hold.
ghost use Rattle.std.specs.Prelude.{◌≡◌};
ghost use Rattle.edits.specs.Swap.{swap_answer, CanArrive, Arrived, is_free, stays, CanSwap, Swapped};

use crate::answer::{Answer, Refusal};
use crate::free_slots::{NEXT, PREVIOUS, set_neighbour};
use slabs::counters::Counters;
use slabs::node_entry::NodeEntry;

// What call 6 answers.
#[tactic(auto, unfolding(crate::specs::Swap::swap_answer))]
pub fn swap_answer(mark: u32, a: u32, b: u32) -> Answer
    ensures { result ≡ swap_answer mark a b }
{
    if mark <= a {
        return Err(Refusal::NoNode(a));
    }
    if mark <= b {
        return Err(Refusal::NoNode(b));
    }
    Ok((0, 0, 0))
}

// An entry arrives at a slot: the owner words of a live one follow, and the neighbours or the head of a free one.
#[tactic(auto, unfolding(crate::specs::FreeSlots::set_previous, crate::specs::FreeSlots::set_next, crate::specs::Swap::arrived_slots, crate::specs::Swap::arrived_owners, crate::specs::Swap::arrived_counters))]
fn arrive(
    slots: &mut [u32],
    owners: &mut [u32],
    counters: Counters,
    node: u32,
    entry: NodeEntry,
) -> Counters
    requires { CanArrive slots.old owners.old node entry }
    ensures { Arrived slots.old owners.old counters node entry slots.new owners.new result }
{
    slabs::node_entry::write_slot(slots, node as usize, entry);
    match entry {
        NodeEntry::Node(meta) => {
            slabs::slab::write_owners(
                owners,
                node,
                meta.first as usize,
                meta.inlets as usize,
                meta.outlets as usize,
            );
            counters
        }
        NodeEntry::Free { previous, next } => {
            set_neighbour::<NEXT>(slots, previous, node + 1);
            set_neighbour::<PREVIOUS>(slots, next, node + 1);
            if previous == 0 {
                return counters.free_slot_moved(node + 1);
            }
            counters
        }
    }
}

// `matches!`, under the name that the definition of swap has.
fn is_free(entry: NodeEntry) -> bool
    ensures { result ≡ is_free entry }
{
    matches!(entry, NodeEntry::Free { .. })
}

// A slot with itself, and two free ones, stay put.
fn stays_put(a: u32, b: u32, here: NodeEntry, there: NodeEntry) -> bool
    ensures { result ≡ stays a b here there }
{
    a == b || is_free(here) && is_free(there)
}

// Exchanges two slots below the mark. It has the tables that it changes, so that the others stay is in its type.
#[tactic(auto, unfolding(crate::specs::Swap::swapped_slots, crate::specs::Swap::swapped_owners, crate::specs::Swap::swapped_counters))]
pub fn swap(slots: &mut [u32], owners: &mut [u32], counters: Counters, a: u32, b: u32) -> Counters
    requires { CanSwap slots.old owners.old a b }
    ensures { Swapped slots.old owners.old counters a b slots.new owners.new result }
{
    let here = slabs::node_entry::read_slot(slots, a as usize);
    let there = slabs::node_entry::read_slot(slots, b as usize);
    if stays_put(a, b, here, there) {
        return counters;
    }
    let after = arrive(slots, owners, counters, a, there);
    arrive(slots, owners, after, b, here)
}
