// Link and unlink, calls 4 and 5.
ghost use Rattle.std.specs.Prelude.{◌≡◌, ◌≤◌, ◌<◌, length};
ghost use Rattle.edits.specs.Linking.{link_answer, joined, unlink_answer};

use crate::answer::{Answer, Refusal};
use crate::below::Ports;
use slabs::links::link_at;

// What call 4 answers. Code 2 names `a` also where `b` is not live.
#[tactic(auto, using(crate::proofs::StoreLaws::port_below), unfolding(crate::specs::Linking::link_answer, slabs::specs::Links::link_at))]
pub fn link_answer(ports: Ports<'_>, a: u32, b: u32) -> Answer
    ensures { result ≡ link_answer ports.entry.owners.now ports.entry.links.now ports.entry.mark a b }
{
    let here = ports.at(a).ok_or(Refusal::NoPort(a))?;
    let there = ports.at(b).ok_or(Refusal::NoPort(a))?; // not b
    if here.direction == there.direction {
        let direction = u32::from(here.direction);
        return Err(Refusal::SameDirection(a, b, direction));
    }
    if link_at(ports.links, a as usize).is_some() {
        return Err(Refusal::AlreadyLinked(a));
    }
    if link_at(ports.links, b as usize).is_some() {
        return Err(Refusal::AlreadyLinked(b));
    }
    Ok((a, b, 0))
}

// Makes a wire between two ports.
#[tactic(auto, unfolding(crate::specs::Linking::joined))]
pub fn join(links: &mut [u32], a: u32, b: u32)
    requires { (a < length links.old) × (b < length links.old) × (length links.old ≤ 1048576) }
    ensures { links.new ≡ joined links.old a b }
{
    links[a as usize] = b + 1;
    links[b as usize] = a + 1;
}

// What call 5 answers.
#[tactic(auto, using(crate::proofs::StoreLaws::port_below), unfolding(crate::specs::Linking::unlink_answer))]
pub fn unlink_answer(ports: Ports<'_>, port: u32) -> Answer
    ensures { result ≡ unlink_answer ports.entry.owners.now ports.entry.links.now ports.entry.mark port }
{
    ports.at(port).ok_or(Refusal::NoPort(port))?;
    let partner = link_at(ports.links, port as usize).ok_or(Refusal::NotLinked(port))?;
    Ok((partner, 0, 0))
}
