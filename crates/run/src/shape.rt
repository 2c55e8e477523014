// The lengths that document 01 sets for the lent memory.
ghost use Rattle.audit.specs.Decides.{Decides};
ghost use Rattle.run.specs.Run.{LengthsOf, WholeUpTo};

// Whether a length is a whole number of fours, at most so many.
#[tactic(auto, using(audit::proofs::DecideLaws::decided_not))]
fn whole(n: usize, most: usize) -> bool
    ensures { Decides result (WholeUpTo n most) }
{
    n % 4 == 0 && n / 4 <= most
}

// The lengths one by one: a struct of eight would be made to be taken apart.
pub fn well_shaped(
    slots: usize,
    links: usize,
    owners: usize,
    heads: usize,
    scratch: usize,
    calls: usize,
    answers: usize,
    log: usize,
) -> bool
    ensures { Decides result (LengthsOf slots links owners heads scratch calls answers log) }
{
    whole(slots, 65536)
        && owners == links
        && links <= 1048576
        && 1 <= heads
        && heads <= 32768
        && slots / 4 + links <= scratch
        && whole(calls, 256)
        && calls <= answers
        && whole(log, 1048576)
}
