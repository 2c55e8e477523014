// The questions, calls 9 to 13.
ghost use Rattle.std.specs.Prelude.{◌≡◌, ◌+◌, ◌*◌, ◌≤◌, length};
ghost use Rattle.slabs.specs.NodeEntry.{width};
ghost use Rattle.edits.specs.Questions.{ask_node, ask_port, nth_port, ask_offset, ask_link, ask_counts};
ghost use Rattle.edits.specs.Fit.{SlotsFit};

use crate::answer::{Answer, Refusal};
use crate::below::{Ports, Slots, port_at};
use slabs::counters::Counters;
use slabs::links::link_at;
use slabs::port_entry::Direction;

// Call 9.
#[tactic(auto, unfolding(crate::specs::Questions::ask_node))]
pub fn ask_node(slots: Slots<'_>, node: u32) -> Answer
    ensures { result ≡ ask_node slots.entry.words.now slots.entry.mark node }
{
    let m = slots.live(node).ok_or(Refusal::NoNode(node))?;
    Ok((m.inlets, m.outlets, m.capacity))
}

// Call 10. It takes no `Ports`, which would ask its callers for the links too.
#[tactic(auto, unfolding(crate::specs::Questions::ask_port))]
pub fn ask_port(slots: &[u32], owners: &[u32], counters: Counters, port: u32) -> Answer
    requires { (width * counters.nodemark ≤ length slots.now) × (counters.portmark ≤ length owners.now) }
    ensures { result ≡ ask_port slots.now owners.now counters port }
{
    let here = port_at(owners, counters.portmark, port).ok_or(Refusal::NoPort(port))?;
    let below = Slots {
        words: slots,
        mark: counters.nodemark,
    };
    let m = below.live(here.node).ok_or(Refusal::OwnerNotLive)?;
    let place = port.saturating_sub(m.first);
    let offset = match here.direction {
        Direction::Incoming => place,
        Direction::Outgoing => place.saturating_sub(m.inlets),
    };
    Ok((here.node, u32::from(here.direction), offset))
}

// The port at an offset, of n ports from `first` on.
fn nth_port(first: u32, n: u32, offset: u32) -> Answer
    requires { first + n ≤ 1048576 }
    ensures { result ≡ nth_port first n offset }
{
    if offset < n {
        return Ok((first + offset, 0, 0));
    }
    Err(Refusal::NoPort(offset))
}

// Call 11. The direction is a word, for any word has its answer (`ask_offset`): 10 for one over 1.
#[tactic(auto, using(crate::proofs::StoreLaws::node_below, crate::proofs::StoreLaws::node_entry_lem), unfolding(crate::specs::Questions::ask_offset))]
pub fn ask_offset(slots: Slots<'_>, node: u32, direction: u32, offset: u32) -> Answer
    requires { SlotsFit slots.words.now slots.mark 32768 1048576 }
    ensures { result ≡ ask_offset slots.entry.words.now slots.entry.mark node direction offset }
{
    let direction = Direction::try_from(direction)?;
    let m = slots.live(node).ok_or(Refusal::NoNode(node))?;
    match direction {
        Direction::Incoming => nth_port(m.first, m.inlets, offset),
        Direction::Outgoing => nth_port(m.first + m.inlets, m.outlets, offset),
    }
}

// Call 12.
#[tactic(auto, using(crate::proofs::StoreLaws::port_below), unfolding(crate::specs::Questions::ask_link))]
pub fn ask_link(ports: Ports<'_>, port: u32) -> Answer
    ensures { result ≡ ask_link ports.entry.owners.now ports.entry.links.now ports.entry.mark port }
{
    ports.at(port).ok_or(Refusal::NoPort(port))?;
    match link_at(ports.links, port as usize) {
        Some(partner) => Ok((1, partner, 0)),
        None => Ok((0, 0, 0)),
    }
}

// Call 13.
pub fn ask_counts(counters: Counters) -> Answer
    ensures { result ≡ ask_counts counters }
{
    Ok((counters.nodes, counters.ports, counters.links))
}
