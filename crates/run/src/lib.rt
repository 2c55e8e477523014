// The run: lengths first, then the audit, then each call in order. It asks nothing of its caller.
#![tactic(auto)]

ghost use Rattle.std.specs.Prelude.{◌≡◌, ◌+◌, ◌*◌, ◌≤◌, length};
ghost use Rattle.edits.specs.Store.{store_in, SameMemory};
ghost use Rattle.run.specs.Run.{call_width, call_at, set_answer, refusal_code, code_of, records_of, lent_in, Ran, CanAnswer, Answered};

pub mod shape;

use calls::Call;
use edits::answer::AnswerWords;
use edits::store::Tables;
use renumber::log::{Log, LogPlace};
use slabs::counters::Counters;
use slabs::rows::{read_row, write_row};

// Why a run answers no call: a length is broken, or the store is not sound.
#[derive(Clone, Copy, PartialEq, Eq)]
pub enum RunRefusal {
    Misshapen,
    Unsound,
}

impl From<RunRefusal> for u32 {
    ghost from_gives = { λ refusal code. code ≡ refusal_code refusal };

    // The number of the refusal.
    fn from(refusal: RunRefusal) -> u32 {
        match refusal {
            RunRefusal::Misshapen => 20,
            RunRefusal::Unsound => 21,
        }
    }
}

// What a run says: how many records it wrote, or why it answered no call; and the counters after it.
#[derive(Clone, Copy)]
pub struct RunAnswer {
    pub records: Result<u32, RunRefusal>,
    pub counters: Counters,
}

// The words of a call, and of an answer.
const CALL: usize = 4;

// Reads call number i. No `From` here and below: the row is taken apart in the line that reads it, which is plainer.
#[tactic(auto, using(slabs::proofs::RowLaws::row_of_four))]
fn read_call(calls: &[u32], i: usize) -> Call
    requires { call_width * i + call_width ≤ length calls.now }
    ensures { result ≡ call_at calls.now i }
{
    let [n, a, b, c] = read_row::<CALL>(calls, i);
    Call { n, a, b, c }
}

// Writes answer number i.
#[tactic(auto, using(slabs::proofs::RowLaws::set_row_of_four))]
fn write_answer(answers: &mut [u32], i: usize, words: AnswerWords)
    requires { call_width * i + call_width ≤ length answers.old }
    ensures { answers.new ≡ set_answer answers.old i words }
{
    let AnswerWords {
        code,
        first,
        second,
        third,
    } = words;
    write_row::<CALL>(answers, i, [code, first, second, third]);
}

// The calls of a run over a sound store, each with what remains of the log.
#[tactic(auto, using(crate::proofs::Steps::stands_first, crate::proofs::Steps::stands_answers, crate::proofs::Steps::stands_last))]
fn answer_calls(
    tables: &mut Tables<'_>,
    calls: &[u32],
    answers: &mut [u32],
    log: &mut [u32],
    counters: Counters,
) -> RunAnswer
    requires { CanAnswer (store_in tables.old counters) calls.now answers.old log.old }
    ensures memory { SameMemory tables.old tables.new }
    ensures calls { Answered (store_in tables.old counters) calls.now answers.old log.old (store_in tables.new result.counters) answers.new log.new result }
{
    let mut after = counters;
    let mut records = Log {
        words: log,
        to: LogPlace { at: 0, place: 0 },
    };
    for place in 0..(calls.len() / CALL) as u32 {
        let call = read_call(calls, place as usize);
        records.to.place = place;
        let done = calls::dispatch(tables, &mut records, after, call);
        write_answer(answers, place as usize, AnswerWords::from(done.answer));
        after = done.counters;
    }
    RunAnswer {
        records: Ok(records.to.at as u32),
        counters: after,
    }
}

// Answers a run of calls over the lent memory.
#[tactic(auto, using(crate::proofs::RunLaws::ran_misshapen, crate::proofs::RunLaws::ran_shaped, crate::proofs::RunLaws::ran_unsound, crate::proofs::RunLaws::ran_sound, crate::proofs::RunLaws::ran_answered))]
pub fn run(
    tables: &mut Tables<'_>,
    scratch: &mut [u32],
    calls: &[u32],
    answers: &mut [u32],
    log: &mut [u32],
    counters: Counters,
) -> RunAnswer
    ensures memory { SameMemory tables.old tables.new }
    ensures run { Ran (lent_in tables.old counters scratch.old calls.now answers.old log.old) (lent_in tables.new result.counters scratch.new calls.now answers.new log.new) (code_of result.records) (records_of result.records) }
{
    let view = tables.view();
    if !shape::well_shaped(
        view.slots.len(),
        view.links.len(),
        view.owners.len(),
        view.heads.len(),
        scratch.len(),
        calls.len(),
        answers.len(),
        log.len(),
    ) {
        return RunAnswer {
            records: Err(RunRefusal::Misshapen),
            counters,
        };
    }
    if !audit::audit(view, scratch, counters) {
        return RunAnswer {
            records: Err(RunRefusal::Unsound),
            counters,
        };
    }
    answer_calls(tables, calls, answers, log, counters)
}
