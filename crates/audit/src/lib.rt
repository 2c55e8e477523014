// The audit: whether the lent words are a sound store. It goes over each table a fixed number of times, and only the scratch is written.
#![tactic(auto)]

ghost use Rattle.std.specs.Prelude.{◌≤◌, length};
ghost use Rattle.edits.specs.Store.{store_seen};
ghost use Rattle.sound.specs.Sound.{Shaped, Sound};
ghost use Rattle.audit.specs.Decides.{Decides};
ghost use Rattle.audit.specs.Parts.{BlankFrom, MarksHold, Audited};

mod chain;
mod ports;
mod slots;
mod words;

use edits::below::Slots;
use edits::store::View;
use slabs::counters::Counters;

// Marks are within room, and what stands at or above them is blank.
fn marks_hold(view: View<'_>, counters: Counters) -> bool
    ensures { Decides result (MarksHold view.entry.slots.now view.entry.links.now view.entry.owners.now counters) }
{
    let nodes = slabs::node_entry::WIDTH * counters.nodemark as usize;
    let ports = counters.portmark as usize;
    nodes <= view.slots.len()
        && ports <= view.links.len()
        && words::blank_from(view.slots, nodes)
        && words::blank_from(view.links, ports)
        && words::blank_from(view.owners, ports)
}

// All seven rules, over a scratch that is zero.
fn holds(view: View<'_>, scratch: &mut [u32], counters: Counters) -> bool
    requires { Shaped (store_seen view counters) × (length view.links.now ≤ length scratch.old) × BlankFrom scratch.old 0 }
    ensures { Decides result (Sound (store_seen view.entry counters)) }
{
    marks_hold(view, counters)
        && slots::slots_hold(
            Slots {
                words: view.slots,
                mark: counters.nodemark,
            },
            view.heads.len(),
        )
        && chain::free_chain_holds(view.slots, counters)
        && ports::tiled(view, scratch, counters)
        && ports::ports_hold(view.links, view.owners, counters)
}

// Whether the words are a sound store. The scratch ends zero.
pub fn audit(view: View<'_>, scratch: &mut [u32], counters: Counters) -> bool
    requires { Shaped (store_seen view counters) × (length view.links.now ≤ length scratch.old) }
    ensures { Audited (store_seen view.entry counters) scratch.old scratch.new result }
{
    scratch.fill(0);
    let sound = holds(view, scratch, counters);
    scratch.fill(0);
    sound
}
