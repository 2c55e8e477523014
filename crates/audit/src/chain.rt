// Rule 3: the free slots are one doubly linked chain. A slot can be met only once, since its previous is the slot that led to it.
ghost use Rattle.std.specs.Prelude.{suc, ◌≡◌, ◌*◌, ◌≤◌, length, MatchOption};
ghost use Rattle.slabs.specs.NodeEntry.{width, slot_word};
ghost use Rattle.audit.specs.Decides.{Decides};
ghost use Rattle.audit.specs.Parts.{LinkHolds, Walk, FreeChainHolds};

use crate::slots;
use edits::below::Slots;
use slabs::counters::Counters;
use slabs::node_entry::NodeEntry;

// The next of the free slot below the mark that stands here, where its previous is the slot before it.
#[tactic(auto, unfolding(edits::specs::Store::node_at, slabs::specs::NodeEntry::node_entry))]
fn next_of(slots: Slots<'_>, slot: u32, before: u32) -> Option<u32>
    ensures { MatchOption result (LinkHolds slots.entry.words.now slots.entry.mark (suc slot) before → ⊥) (λ next. LinkHolds slots.entry.words.now slots.entry.mark (suc slot) before × (next ≡ slot_word slots.entry.words.now slot 2)) }
{
    // A slot at or above the mark is given as free too.
    match slots.at(slot) {
        NodeEntry::Free { previous, next } if slot < slots.mark && previous == before => Some(next),
        _ => None,
    }
}

// Walks the chain from the head over exactly n slots.
fn chain_is(slots: Slots<'_>, head: u32, n: u32) -> bool
    ensures { Decides result (Walk slots.entry.words.now slots.entry.mark head 0 n) }
{
    let mut word = head;
    let mut before = 0;
    for _ in 0..n {
        if word == 0 {
            return false;
        }
        let Some(next) = next_of(slots, word - 1, before) else {
            return false;
        };
        before = word;
        word = next;
    }
    word == 0
}

// Rule 3, and rule 7's count of nodes: as many slots are on the chain as are not live. It takes the counters, which have the mark: in a
// `Slots` beside them the mark would stand twice, and a clause would say that both are one.
pub fn free_chain_holds(slots: &[u32], counters: Counters) -> bool
    requires { width * counters.nodemark ≤ length slots.now }
    ensures { Decides result (FreeChainHolds slots.now counters) }
{
    let below = Slots {
        words: slots,
        mark: counters.nodemark,
    };
    let live = slots::live_slots(below);
    counters.nodes == live && chain_is(below, counters.freeslot, counters.nodemark - live)
}
