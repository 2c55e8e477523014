// The dispatch: a call's four words to its answer. Every call leaves the lent memory as its definition says.
#![tactic(auto)]

ghost use Rattle.std.specs.Prelude.{◌≡◌};
ghost use Rattle.edits.specs.Store.{store_in, store_seen, SameMemory};
ghost use Rattle.edits.specs.Fit.{Fit};
ghost use Rattle.renumber.specs.Records.{SameLog};
ghost use Rattle.renumber.specs.Room.{LogFits};
ghost use Rattle.calls.specs.Call.{remaining, BecameIn, LeftIn, Logged, clear_call, add_call, remove_call, resize_call, link_call, unlink_call, swap_call, compact_nodes_call, compact_ports_call, question, question_call, call_of};

use edits::answer::{Answer, Refusal};
use edits::below::{Ports, Slots};
use edits::store::{Tables, View};
use edits::{clear, linking, questions, steps, swap};
use renumber::log::Log;
use renumber::resize::Change;
use renumber::{compact, resize};
use slabs::counters::Counters;

// A call: any four words, its number first, for numbers that no call has are answered too.
#[derive(Clone, Copy, PartialEq, Eq)]
pub struct Call {
    pub n: u32,
    pub a: u32,
    pub b: u32,
    pub c: u32,
}

// What a call leaves: its answer and the counters.
#[derive(Clone, Copy)]
pub struct Outcome {
    pub answer: Answer,
    pub counters: Counters,
}

// What a call that is done leaves: its three values and the counters. A refused one leaves none, so that `?` can hand it on.
#[derive(Clone, Copy)]
pub struct Done {
    pub values: (u32, u32, u32),
    pub counters: Counters,
}

// The records that remain in the log.
fn left(log: &Log<'_>) -> usize
    requires { LogFits log.now.words.now log.now.to }
    ensures { result ≡ remaining log.now.words.now log.now.to }
{
    log.words.len() / renumber::log::RECORD - log.to.at
}

// Call 0.
fn call_clear(tables: &mut Tables<'_>, counters: Counters) -> Done
    ensures memory { SameMemory tables.old tables.new }
    ensures call { LeftIn (clear_call (store_in tables.old counters)) counters tables.new (Ok result) }
{
    Done {
        values: (0, 0, 0),
        counters: clear::clear(tables, counters),
    }
}

// Call 1.
#[tactic(auto, using(crate::proofs::AnswerLaws::can_add), unfolding(crate::specs::Call::add_call, crate::specs::Call::decided))]
fn call_add(
    tables: &mut Tables<'_>,
    counters: Counters,
    inlets: u32,
    outlets: u32,
) -> Result<Done, Refusal>
    requires { Fit (store_in tables.old counters) }
    ensures memory { SameMemory tables.old tables.new }
    ensures call { LeftIn (add_call (store_in tables.old counters) inlets outlets) counters tables.new result }
{
    let view = tables.view();
    let values = steps::add_answer(
        view.slots,
        view.links.len(),
        view.heads,
        counters,
        inlets,
        outlets,
    )?;
    Ok(Done {
        values,
        counters: steps::add(tables, counters, inlets, outlets),
    })
}

// Call 2.
#[tactic(auto, using(edits::proofs::StoreLaws::node_below, edits::proofs::StoreLaws::node_entry_lem), unfolding(crate::specs::Call::remove_call, edits::specs::Steps::remove_answer, crate::specs::Call::decided))]
fn call_remove(tables: &mut Tables<'_>, counters: Counters, node: u32) -> Result<Done, Refusal>
    requires { Fit (store_in tables.old counters) }
    ensures memory { SameMemory tables.old tables.new }
    ensures call { LeftIn (remove_call (store_in tables.old counters) node) counters tables.new result }
{
    let view = tables.view();
    let slots = Slots {
        words: view.slots,
        mark: counters.nodemark,
    };
    let meta = slots.live(node).ok_or(Refusal::NoNode(node))?;
    Ok(Done {
        values: (0, 0, 0),
        counters: steps::remove(tables, counters, node, meta),
    })
}

// Call 3. A step that has these counts already stays as it is. The slot was read for the answer too, and is read again for what it
// holds: a second promise of the answer would have to tell both.
#[tactic(auto, using(crate::proofs::QuietLaws::logged_nothing, crate::proofs::RoomLaws::changes_written, renumber::proofs::PackLaws::fits_wider), unfolding(crate::specs::Call::resize_call, crate::specs::Call::change_call, crate::specs::Call::decided, renumber::specs::Resize::resize_answer))]
fn call_resize(
    tables: &mut Tables<'_>,
    log: &mut Log<'_>,
    counters: Counters,
    node: u32,
    inlets: u32,
    outlets: u32,
) -> Result<Done, Refusal>
    requires { Fit (store_in tables.old counters) × LogFits log.old.words.now log.old.to }
    ensures memory { SameMemory tables.old tables.new × SameLog log.old log.new }
    ensures call { LeftIn (resize_call (store_in tables.old counters) (remaining log.old.words.now log.old.to) node inlets outlets) counters tables.new result }
    ensures log { Logged log.old log.new (resize_call (store_in tables.old counters) (remaining log.old.words.now log.old.to) node inlets outlets).records }
{
    let room = left(log);
    let view = tables.view();
    let values = resize::resize_answer(
        view.slots,
        view.links.len(),
        view.heads,
        counters,
        room,
        node,
        inlets,
        outlets,
    )?;
    let slots = Slots {
        words: view.slots,
        mark: counters.nodemark,
    };
    let meta = slots.live(node).ok_or(Refusal::NoNode(node))?;
    let change = Change {
        node,
        meta,
        inlets,
        outlets,
    };
    if change.is_idle() {
        return Ok(Done { values, counters });
    }
    Ok(Done {
        values,
        counters: resize::resize(tables, log, counters, change),
    })
}

// Call 4.
#[tactic(auto, using(crate::proofs::AnswerLaws::link_done), unfolding(crate::specs::Call::link_call, crate::specs::Call::decided))]
fn call_link(tables: &mut Tables<'_>, counters: Counters, a: u32, b: u32) -> Result<Done, Refusal>
    requires { Fit (store_in tables.old counters) }
    ensures memory { SameMemory tables.old tables.new }
    ensures call { LeftIn (link_call (store_in tables.old counters) a b) counters tables.new result }
{
    let view = tables.view();
    let ports = Ports {
        owners: view.owners,
        links: view.links,
        mark: counters.portmark,
    };
    let values = linking::link_answer(ports, a, b)?;
    linking::join(tables.links, a, b);
    Ok(Done {
        values,
        counters: counters.link_counted(),
    })
}

// Call 5.
#[tactic(auto, using(crate::proofs::AnswerLaws::unlink_done), unfolding(crate::specs::Call::unlink_call, crate::specs::Call::decided))]
fn call_unlink(tables: &mut Tables<'_>, counters: Counters, port: u32) -> Result<Done, Refusal>
    requires { Fit (store_in tables.old counters) }
    ensures memory { SameMemory tables.old tables.new }
    ensures call { LeftIn (unlink_call (store_in tables.old counters) port) counters tables.new result }
{
    let view = tables.view();
    let ports = Ports {
        owners: view.owners,
        links: view.links,
        mark: counters.portmark,
    };
    let values = linking::unlink_answer(ports, port)?;
    let wires = slabs::links::cut(tables.links, port as usize);
    Ok(Done {
        values,
        counters: counters.links_uncounted(wires),
    })
}

// Call 6.
#[tactic(auto, using(crate::proofs::AnswerLaws::swap_done, edits::proofs::AnswerLaws::swap_fit), unfolding(crate::specs::Call::swap_call, crate::specs::Call::decided, edits::specs::Swap::swapped))]
fn call_swap(tables: &mut Tables<'_>, counters: Counters, a: u32, b: u32) -> Result<Done, Refusal>
    requires { Fit (store_in tables.old counters) }
    ensures memory { SameMemory tables.old tables.new }
    ensures call { LeftIn (swap_call (store_in tables.old counters) a b) counters tables.new result }
{
    let values = swap::swap_answer(counters.nodemark, a, b)?;
    Ok(Done {
        values,
        counters: swap::swap(tables.slots, tables.owners, counters, a, b),
    })
}

// Call 7.
#[tactic(auto, using(crate::proofs::RoomLaws::nodes_written, crate::proofs::QuietLaws::logged_nothing), unfolding(crate::specs::Call::compact_nodes_call, crate::specs::Call::decided, renumber::specs::Compact::nodes_compacted))]
fn call_compact_nodes(
    tables: &mut Tables<'_>,
    log: &mut Log<'_>,
    counters: Counters,
) -> Result<Done, Refusal>
    requires { Fit (store_in tables.old counters) × LogFits log.old.words.now log.old.to }
    ensures memory { SameMemory tables.old tables.new × SameLog log.old log.new }
    ensures call { LeftIn (compact_nodes_call (store_in tables.old counters) (remaining log.old.words.now log.old.to)) counters tables.new result }
    ensures log { Logged log.old log.new (compact_nodes_call (store_in tables.old counters) (remaining log.old.words.now log.old.to)).records }
{
    let values = compact::compact_answer(counters.nodes, left(log))?;
    Ok(Done {
        values,
        counters: compact::compact_nodes(tables.slots, tables.owners, log, counters),
    })
}

// Call 8.
#[tactic(auto, using(crate::proofs::RoomLaws::compact_room, crate::proofs::RoomLaws::ports_written, crate::proofs::QuietLaws::logged_nothing), unfolding(crate::specs::Call::compact_ports_call, crate::specs::Call::decided))]
fn call_compact_ports(
    tables: &mut Tables<'_>,
    log: &mut Log<'_>,
    counters: Counters,
) -> Result<Done, Refusal>
    requires { Fit (store_in tables.old counters) × LogFits log.old.words.now log.old.to }
    ensures memory { SameMemory tables.old tables.new × SameLog log.old log.new }
    ensures call { LeftIn (compact_ports_call (store_in tables.old counters) (remaining log.old.words.now log.old.to)) counters tables.new result }
    ensures log { Logged log.old log.new (compact_ports_call (store_in tables.old counters) (remaining log.old.words.now log.old.to)).records }
{
    let values = compact::compact_answer(counters.ports, left(log))?;
    Ok(Done {
        values,
        counters: compact::compact_ports(tables, log, counters),
    })
}

// Calls 9 to 13, and numbers that no call has.
#[tactic(auto, using(renumber::proofs::PackLaws::fits_wider), unfolding(crate::specs::Call::question))]
fn ask(view: View<'_>, counters: Counters, call: Call) -> Answer
    requires { Fit (store_seen view counters) }
    ensures { result ≡ question (store_seen view.entry counters) call }
{
    let slots = Slots {
        words: view.slots,
        mark: counters.nodemark,
    };
    let ports = Ports {
        owners: view.owners,
        links: view.links,
        mark: counters.portmark,
    };
    match call.n {
        9 => questions::ask_node(slots, call.a),
        10 => questions::ask_port(view.slots, view.owners, counters, call.a),
        11 => questions::ask_offset(slots, call.a, call.b, call.c),
        12 => questions::ask_link(ports, call.a),
        13 => questions::ask_counts(counters),
        _ => Err(Refusal::NoSuchCall),
    }
}

// A question changes nothing.
fn call_question(view: View<'_>, counters: Counters, call: Call) -> Result<Done, Refusal>
    requires { Fit (store_seen view counters) }
    ensures { result ≡ question_call (store_seen view.entry counters) call }
{
    let values = ask(view, counters, call)?;
    Ok(Done { values, counters })
}

// Every call. Each number has one arm: 0 to 8 here, the questions' in `ask`. Names for the numbers would want a second match of the
// same fourteen.
#[tactic(auto, using(crate::proofs::QuietLaws::decided_quiet, crate::proofs::QuietLaws::logged_nothing), unfolding(crate::specs::Call::call_of, crate::specs::Call::add_call, crate::specs::Call::remove_call, crate::specs::Call::link_call, crate::specs::Call::unlink_call, crate::specs::Call::swap_call))]
fn answer_call(
    tables: &mut Tables<'_>,
    log: &mut Log<'_>,
    counters: Counters,
    call: Call,
) -> Result<Done, Refusal>
    requires { Fit (store_in tables.old counters) × LogFits log.old.words.now log.old.to }
    ensures memory { SameMemory tables.old tables.new × SameLog log.old log.new }
    ensures call { LeftIn (call_of (store_in tables.old counters) (remaining log.old.words.now log.old.to) call) counters tables.new result }
    ensures log { Logged log.old log.new (call_of (store_in tables.old counters) (remaining log.old.words.now log.old.to) call).records }
{
    match call.n {
        0 => Ok(call_clear(tables, counters)),
        1 => call_add(tables, counters, call.a, call.b),
        2 => call_remove(tables, counters, call.a),
        3 => call_resize(tables, log, counters, call.a, call.b, call.c),
        4 => call_link(tables, counters, call.a, call.b),
        5 => call_unlink(tables, counters, call.a),
        6 => call_swap(tables, counters, call.a, call.b),
        7 => call_compact_nodes(tables, log, counters),
        8 => call_compact_ports(tables, log, counters),
        _ => call_question(tables.view(), counters, call),
    }
}

// Answers a call. The log then stands where the next one's records go.
pub fn dispatch(
    tables: &mut Tables<'_>,
    log: &mut Log<'_>,
    counters: Counters,
    call: Call,
) -> Outcome
    requires { Fit (store_in tables.old counters) × LogFits log.old.words.now log.old.to }
    ensures memory { SameMemory tables.old tables.new × SameLog log.old log.new }
    ensures call { BecameIn (call_of (store_in tables.old counters) (remaining log.old.words.now log.old.to) call) log.old tables.new log.new result }
{
    match answer_call(tables, log, counters, call) {
        Ok(done) => Outcome {
            answer: Ok(done.values),
            counters: done.counters,
        },
        Err(refusal) => Outcome {
            answer: Err(refusal),
            counters,
        },
    }
}
