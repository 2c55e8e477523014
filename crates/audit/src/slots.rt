// Rule 2, slot by slot.
ghost use Rattle.std.specs.Prelude.{◌≡◌, ◌*◌, ◌≤◌, ◌<◌, length};
ghost use Rattle.slabs.specs.NodeEntry.{width, slot_word, node_entry};
ghost use Rattle.edits.specs.Counts.{live_slots};
ghost use Rattle.sound.specs.Sound.{LiveSlot, SlotSays};
ghost use Rattle.audit.specs.Decides.{Decides};
ghost use Rattle.audit.specs.Parts.{SlotsHold};

use edits::below::Slots;
use edits::steps::MOST;
use slabs::node_entry::{NodeEntry, NodeMeta, WIDTH};

// Rule 2 for a live slot.
fn live_holds(meta: NodeMeta, heads: usize) -> bool
    ensures { Decides result (LiveSlot heads meta) }
{
    meta.inlets <= MOST
        && meta.outlets <= MOST
        && meta.inlets + meta.outlets <= meta.capacity
        && meta.capacity as usize <= heads
        && (meta.capacity != 0 || meta.first == 0)
}

// Rule 2 for one slot.
#[tactic(auto, unfolding(edits::specs::Store::node_at))]
fn slot_holds(slots: Slots<'_>, heads: usize, slot: u32) -> bool
    requires { slot < slots.mark }
    ensures { Decides result (SlotSays heads (slot_word slots.entry.words.now slot 3) (node_entry slots.entry.words.now slot)) }
{
    match slots.at(slot) {
        NodeEntry::Node(meta) => live_holds(meta, heads),
        // The fourth word of a free slot is no part of what it says, so it is read by its place.
        NodeEntry::Free { .. } => slots.words[WIDTH * slot as usize + 3] == 0,
    }
}

// Rule 2 for every slot below the mark.
pub fn slots_hold(slots: Slots<'_>, heads: usize) -> bool
    ensures { Decides result (SlotsHold slots.entry.words.now heads slots.entry.mark) }
{
    (0..slots.mark).all(|slot| slot_holds(slots, heads, slot))
}

// How many slots below the mark are live.
pub fn live_slots(slots: Slots<'_>) -> u32
    ensures { result ≡ live_slots slots.entry.words.now slots.entry.mark }
{
    // The one word that tells: this pass reads no more of a slot.
    let mut live = 0;
    for k in 0..slots.mark {
        if slots.words[WIDTH * k as usize + 1] != 0 {
            live += 1;
        }
    }
    live
}
