// Sessions: an empty store of some room, and runs of calls over it.
ghost use Rattle.std.specs.Prelude.{◌≡◌, ◌≢◌, ◌*◌, ◌/◌, ◌≤◌, length, take, OnOk};
ghost use Rattle.std.specs.Io.KnownBytes.{Appends};
ghost use Rattle.edits.specs.Store.{SameMemory};
ghost use Rattle.run.specs.Run.{code_of, records_of};
ghost use Rattle.replay.specs.Transcript.{transcript, refusal_line};

use crate::lines::{self, Change, Line};
use crate::{printing, runs};
use arrayvec::ArrayVec;
use edits::store::Tables;
use run::RunAnswer;
use slabs::counters::Counters;
use std::io::{self, Write};

// The words of the calls of a run, of which it has 256 at the most.
type Calls = ArrayVec<u32, 1024>;

// The room that a session asks for, its next run's log included, and the counters of its store. Slots and records are
// counted in words. There may be less room than that: a table is lent as far as it goes.
#[derive(Clone, Copy)]
pub struct Session {
    pub slot_words: usize,
    pub ports: usize,
    pub heads: usize,
    pub scratch_words: usize,
    pub log_words: usize,
    pub counters: Counters,
}

// The words of so many slots or records.
fn words_of(items: u32) -> usize
    ensures { result ≡ 4 * items }
{
    4 * items as usize
}

// The first n words of a table, or all where it has fewer.
fn lent(table: &mut [u32], n: usize) -> &mut [u32]
    ensures { result.now ≡ take n table.old }
{
    let end = n.min(table.len());
    &mut table[..end]
}

// The first n words of a table become 0, or all where it has fewer.
fn zero(table: &mut [u32], n: usize) {
    lent(table, n).fill(0);
}

// A word among the first n of a table is overwritten.
fn set_word(table: &mut [u32], n: usize, at: u32, word: u32) {
    if let Some(old) = lent(table, n).get_mut(at as usize) {
        *old = word;
    }
}

// A counter is overwritten. Which one is the number of the line, and a number that no counter has is no mistake.
fn set_counter(mut counters: Counters, which: u32, word: u32) -> Counters {
    match which {
        0 => counters.nodemark = word,
        1 => counters.portmark = word,
        2 => counters.freeslot = word,
        3 => counters.nodes = word,
        4 => counters.ports = word,
        5 => counters.links = word,
        _ => {}
    }
    counters
}

impl Session {
    // An empty store of this room.
    fn empty(slots: u32, ports: u32, heads: u32, records: u32) -> Self {
        Session {
            slot_words: words_of(slots),
            ports: ports as usize,
            heads: heads as usize,
            scratch_words: slots as usize + ports as usize,
            log_words: words_of(records),
            counters: Counters::none_counted(),
        }
    }

    // The log of the next run has room for so many records.
    fn with_records(mut self, records: u32) -> Self {
        self.log_words = words_of(records);
        self
    }

    // The store with other counters.
    fn with_counters(mut self, counters: Counters) -> Self {
        self.counters = counters;
        self
    }
}

// The tables of a session are made empty, as far as its room goes.
fn begin(session: Session, tables: &mut Tables<'_>)
    ensures memory { SameMemory tables.old tables.new }
{
    zero(tables.slots, session.slot_words);
    zero(tables.links, session.ports);
    zero(tables.owners, session.ports);
    zero(tables.heads, session.heads);
}

// A word of the store is overwritten, if there is such a word. So stores can be tried that no run leaves.
fn overwrite(session: Session, tables: &mut Tables<'_>, table: u32, at: u32, word: u32) -> Session
    ensures memory { SameMemory tables.old tables.new }
{
    match table {
        0 => set_word(tables.slots, session.slot_words, at, word),
        1 => set_word(tables.links, session.ports, at, word),
        2 => set_word(tables.owners, session.ports, at, word),
        3 => set_word(tables.heads, session.heads, at, word),
        4 => return session.with_counters(set_counter(session.counters, at, word)),
        _ => {}
    }
    session
}

// A line that changes the session is printed, and what it says is done.
fn change<W: Write>(
    output: &mut W,
    session: Session,
    line: Change,
    tables: &mut Tables<'_>,
) -> io::Result<Session>
    ensures memory { SameMemory tables.old tables.new }
{
    match line {
        Change::Begin {
            slots,
            ports,
            heads,
            records,
        } => {
            printing::print_line(output, b'S', &[slots, ports, heads, records])?;
            let begun = Session::empty(slots, ports, heads, records);
            begin(begun, tables);
            Ok(begun)
        }
        Change::Records(records) => {
            printing::print_line(output, b'N', &[records])?;
            Ok(session.with_records(records))
        }
        Change::Word { table, at, word } => {
            printing::print_line(output, b'W', &[table, at, word])?;
            Ok(overwrite(session, tables, table, at, word))
        }
    }
}

// Prints what a run answered: its calls, or the code by which it was refused.
fn print_answer<W: Write>(
    output: &mut W,
    done: RunAnswer,
    calls: &[u32],
    answers: &[u32; 1024],
    log: &[u32],
) -> io::Result<()>
    ensures refused { OnOk result (code_of done.records ≢ 0 → Appends (W.contents output.old) (W.contents output.new) (refusal_line (code_of done.records))) }
    ensures answered { OnOk result (code_of done.records ≡ 0 → length calls.now ≤ 1024 → Appends (W.contents output.old) (W.contents output.new) (transcript calls.now answers.now (take (4 * records_of done.records) log.now) (length calls.now / 4))) }
{
    match done.records {
        Ok(records) => {
            let written = words_of(records).min(log.len());
            runs::print_run(output, calls, answers, &log[..written])
        }
        Err(refusal) => printing::print_line(output, b'Q', &[u32::from(refusal)]),
    }
}

// A run over parts of the tables. They come one by one: a struct made of parts of another's slices is past the borrow checker, which
// says that a call keeps the loan of a slice in a field while another field is used.
fn run_over(
    slots: &mut [u32],
    links: &mut [u32],
    owners: &mut [u32],
    heads: &mut [u32],
    scratch: &mut [u32],
    calls: &[u32],
    answers: &mut [u32; 1024],
    log: &mut [u32],
    counters: Counters,
) -> RunAnswer {
    let mut parts = Tables {
        slots,
        links,
        owners,
        heads,
    };
    run::run(&mut parts, scratch, calls, answers, log, counters)
}

// Makes a run of some calls, prints it, and gives the session after it.
fn make_run<W: Write>(
    output: &mut W,
    session: Session,
    calls: &[u32],
    tables: &mut Tables<'_>,
    scratch: &mut [u32],
    log: &mut [u32],
) -> io::Result<Session>
    ensures memory { SameMemory tables.old tables.new }
{
    let mut answers = [0u32; 1024];
    let done = run_over(
        lent(tables.slots, session.slot_words),
        lent(tables.links, session.ports),
        lent(tables.owners, session.ports),
        lent(tables.heads, session.heads),
        lent(scratch, session.scratch_words),
        calls,
        &mut answers,
        lent(log, session.log_words),
        session.counters,
    );
    print_answer(output, done, calls, &answers, log)?;
    Ok(session.with_counters(done.counters))
}

// Makes the run of the calls that wait, if there are any, so that none waits, and gives the session after it.
fn end_run<W: Write>(
    output: &mut W,
    session: Session,
    calls: &mut Calls,
    tables: &mut Tables<'_>,
    scratch: &mut [u32],
    log: &mut [u32],
) -> io::Result<Session>
    ensures memory { SameMemory tables.old tables.new }
{
    if calls.is_empty() {
        return Ok(session);
    }
    let after = make_run(output, session, calls.as_slice(), tables, scratch, log)?;
    calls.clear();
    Ok(after)
}

// Replays the sessions of a text in these tables, whose lengths are the largest room. Calls before the first S line
// are a session in the room of the desk program. A run ends before a change, before a call that has no room in it, and
// with the text.
pub fn replay<W: Write>(
    output: &mut W,
    text: &[u8],
    tables: &mut Tables<'_>,
    scratch: &mut [u32],
    log: &mut [u32],
) -> io::Result<()>
    ensures memory { SameMemory tables.old tables.new }
{
    let mut session = Session::empty(64, 512, 128, 512);
    let mut calls = Calls::new();
    let mut rest = text;
    // A `for` over `split` was tried, and its proof did not close: this function takes any writer.
    while let Some((line, after)) = lines::read_line(rest) {
        rest = after;
        match line {
            Some(Line::Call(call)) => {
                if calls.try_extend_from_slice(&call).is_err() {
                    session = end_run(output, session, &mut calls, tables, scratch, log)?;
                    // It has room in a run of its own.
                    let _ = calls.try_extend_from_slice(&call);
                }
            }
            Some(Line::Change(line)) => {
                session = end_run(output, session, &mut calls, tables, scratch, log)?;
                session = change(output, session, line, tables)?;
            }
            // A line that says nothing ends no run.
            None => {}
        }
    }
    end_run(output, session, &mut calls, tables, scratch, log)?;
    Ok(())
}
