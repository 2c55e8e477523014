// What resize and the compactions are made of: cutting removed ports and carrying ports to new numbers, each with its records.
ghost use Rattle.std.specs.Prelude.{◌≡◌, ◌+◌, ◌*◌, ◌≤◌, ◌<◌, length};
ghost use Rattle.slabs.specs.Links.{Inside};
ghost use Rattle.renumber.specs.Records.{record_width, set_record, logged, later, SameLog};
ghost use Rattle.renumber.specs.Moves.{removed_record, moved, turn, moved_run, moved_records};
ghost use Rattle.renumber.specs.Room.{RecordRoom, CanCut, CutPorts, CanMove};

use crate::log::{Kind, Log};

// A port without a wire is removed, and one with a wire is unwired from its partner.
#[tactic(auto, unfolding(crate::specs::Moves::removed_record, slabs::specs::Links::link_at))]
fn record_removed(links: &[u32], log: &mut Log<'_>, port: u32)
    requires { (port < length links.now) × (record_width * log.old.to.at + record_width ≤ length log.old.words.now) }
    ensures memory { SameLog log.old log.new }
    ensures words { log.new.words.now ≡ set_record log.old.words.now log.old.to.at log.old.to.place (removed_record links.now port) }
    ensures next { log.new.to ≡ later log.old.to 1 }
{
    match slabs::links::link_at(links, port as usize) {
        None => log.write(Kind::Removed, port, 0),
        Some(partner) => log.write(Kind::Unwired, port, partner),
    }
}

// Cuts n removed ports from `first` on, by rising number, and records each with the partner that it has at that moment.
// Says how many wires were cut.
#[tactic(auto, using(slabs::proofs::Shapes::cut_laws, crate::proofs::RecordLaws::log_laws), unfolding(slabs::specs::Links::cut_run, slabs::specs::Links::wires_in, crate::specs::Moves::removed_records))]
pub fn remove_ports(links: &mut [u32], log: &mut Log<'_>, first: u32, n: u32) -> u32
    requires { CanCut links.old log.old.words.now log.old.to first n }
    ensures memory { SameLog log.old log.new }
    ensures words { CutPorts links.old log.old.words.now log.old.to first n links.new log.new.words.now result }
    ensures next { log.new.to ≡ later log.old.to n }
{
    let mut wires: u32 = 0;
    for i in 0..n {
        record_removed(links, log, first + i);
        wires += slabs::links::cut(links, (first + i) as usize);
    }
    wires
}

// Carries a port's wire from its old number to its new one: the partner's word follows.
#[tactic(auto, unfolding(crate::specs::Moves::moved, crate::specs::Moves::carried))]
pub fn move_port(links: &mut [u32], old: u32, new: u32)
    requires { (old < length links.old) × (new < length links.old) × (length links.old ≤ 1048576) × Inside links.old }
    ensures { links.new ≡ moved links.old old new }
{
    if old == new {
        return;
    }
    let word = links[old as usize];
    links[old as usize] = 0;
    links[new as usize] = word;
    if let Some(partner) = word.checked_sub(1) {
        links[partner as usize] = new + 1;
    }
}

// A run of ports that move, and from which end.
#[derive(Clone, Copy)]
pub struct Run {
    pub from: u32,
    pub to: u32,
    pub n: u32,
    pub rising: bool,
}

impl Run {
    // Which port of the run goes at step i: from the low end up, or from the high end down. A range and its `rev()` are two
    // types, so that a loop over either, as the run says, would stand twice; one loop that turns its step is plainer.
    #[tactic(auto, unfolding(crate::specs::Moves::turn))]
    fn turn(self, i: u32) -> u32
        requires { i < self.n }
        ensures { result ≡ turn self i }
    {
        if self.rising { i } else { self.n - 1 - i }
    }
}

// Carries a run of ports. Its records are a loop of their own, for what is promised here is of the links alone, and there of the log.
#[tactic(auto, using(crate::proofs::MoveLaws::run_laws), unfolding(crate::specs::Moves::moved_run))]
pub fn move_ports(links: &mut [u32], run: Run)
    requires { CanMove links.old run }
    ensures { links.new ≡ moved_run links.old run run.n }
{
    for i in 0..run.n {
        let k = run.turn(i);
        move_port(links, run.from + k, run.to + k);
    }
}

// Records those moves, in the same order.
#[tactic(auto, using(crate::proofs::MoveLaws::run_laws, crate::proofs::RecordLaws::log_laws), unfolding(crate::specs::Moves::moved_records))]
pub fn record_moves(log: &mut Log<'_>, run: Run)
    requires { RecordRoom log.old.words.now log.old.to run.n × (run.from + run.n ≤ 1048576) × (run.to + run.n ≤ 1048576) }
    ensures memory { SameLog log.old log.new }
    ensures words { log.new.words.now ≡ logged log.old.words.now log.old.to.at log.old.to.place (moved_records run) }
    ensures next { log.new.to ≡ later log.old.to run.n }
{
    for i in 0..run.n {
        let k = run.turn(i);
        log.write(Kind::PortMoved, run.from + k, run.to + k);
    }
}
