// Free slots: a doubly linked chain from the free slot head.
ghost use Rattle.std.specs.Prelude.{◌≡◌, ◌+◌, ◌*◌, ◌≤◌, ◌<◌, length};
ghost use Rattle.slabs.specs.NodeEntry.{width};
ghost use Rattle.edits.specs.FreeSlots.{set_neighbour, slot_at_hand, next_slot, CanTakeSlot, TookSlot, slot_freed, slot_freed_counters};

use slabs::counters::Counters;
use slabs::node_entry::{NodeEntry, WIDTH};

// The words of a free slot that name its neighbours: places in its row, and numbers, as a const parameter is.
pub const PREVIOUS: usize = 0;

pub const NEXT: usize = 2;

// Writes a neighbour's word of the free slot that a chain word names. A chain word is a slot plus 1, and 0 is none: then nothing is
// written.
pub fn set_neighbour<const WORD: usize>(slots: &mut [u32], word: u32, neighbour: u32)
    requires { (width * word ≤ length slots.old) × (WORD < width) }
    ensures { slots.new ≡ set_neighbour WORD slots.old word neighbour }
{
    if let Some(slot) = word.checked_sub(1) {
        slots[WIDTH * slot as usize + WORD] = neighbour;
    }
}

// Whether a slot can be had.
#[tactic(auto, unfolding(crate::specs::FreeSlots::slot_at_hand))]
pub fn slot_at_hand(slots: &[u32], counters: Counters) -> bool
    ensures { result ≡ slot_at_hand slots.now counters }
{
    counters.freeslot != 0 || WIDTH * counters.nodemark as usize + WIDTH <= slots.len()
}

// The slot that an add would take: the head free slot, else the one at the mark.
#[tactic(auto, unfolding(crate::specs::FreeSlots::next_slot))]
pub fn next_slot(counters: Counters) -> u32
    ensures { result ≡ next_slot counters }
{
    counters
        .freeslot
        .checked_sub(1)
        .unwrap_or(counters.nodemark)
}

// Takes it, and gives it with the counters after it. The slot's own words are for the caller to write.
#[tactic(auto, unfolding(crate::specs::FreeSlots::next_slot, crate::specs::FreeSlots::set_previous, crate::specs::FreeSlots::slot_taken, crate::specs::FreeSlots::taken_node_mark, crate::specs::FreeSlots::taken_free_slot))]
pub fn take_slot(slots: &mut [u32], counters: Counters) -> (u32, Counters)
    requires { CanTakeSlot slots.old counters }
    ensures { TookSlot slots.old counters slots.new result.0 result.1 }
{
    let node = next_slot(counters);
    if counters.freeslot == 0 {
        return (node, counters.node_mark_raised());
    }
    let next = slots[WIDTH * node as usize + NEXT];
    set_neighbour::<PREVIOUS>(slots, next, 0);
    (node, counters.free_slot_moved(next))
}

// Makes a slot the head of the free chain.
#[tactic(auto, unfolding(crate::specs::FreeSlots::slot_freed, crate::specs::FreeSlots::set_previous))]
pub fn free_slot(slots: &mut [u32], counters: Counters, node: u32) -> Counters
    requires { (width * node + width ≤ length slots.old) × (width * counters.freeslot ≤ length slots.old) × (node < 65536) }
    ensures { (result ≡ slot_freed_counters counters node) × (slots.new ≡ slot_freed slots.old counters node) }
{
    set_neighbour::<PREVIOUS>(slots, counters.freeslot, node + 1);
    let entry = NodeEntry::Free {
        previous: 0,
        next: counters.freeslot,
    };
    slabs::node_entry::write_slot(slots, node as usize, entry);
    counters.free_slot_moved(node + 1)
}
