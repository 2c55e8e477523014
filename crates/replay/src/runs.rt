// Runs: what is printed of the calls that follow one another.
ghost use Rattle.std.specs.Prelude.{◌≤◌, ◌/◌, length, OnOk};
ghost use Rattle.std.specs.Io.KnownBytes.{Appends};
ghost use Rattle.text.specs.Lines.{record_lines};
ghost use Rattle.replay.specs.Transcript.{transcript};

use crate::printing;
use std::io::{self, Write};

// Prints the records of one call: those that name its place. `text` has lines like these and print_run's for a page,
// which cannot fail; here each write may, so each has a `?`.
fn print_records<W: Write>(output: &mut W, log: &[u32], place: u32) -> io::Result<()>
    ensures { OnOk result (Appends (W.contents output.old) (W.contents output.new) (record_lines log.now place (length log.now / 4))) }
{
    for record in log.chunks_exact(4) {
        if record[0] != place {
            continue;
        }
        printing::print_line(output, b'R', record)?;
    }
    Ok(())
}

// Prints each call with its answer and its records. A run has 256 calls at the most.
pub fn print_run<W: Write>(
    output: &mut W,
    calls: &[u32],
    answers: &[u32; 1024],
    log: &[u32],
) -> io::Result<()>
    ensures { OnOk result (length calls.now ≤ 1024 → Appends (W.contents output.old) (W.contents output.new) (transcript calls.now answers.now log.now (length calls.now / 4))) }
{
    let each = calls.chunks_exact(4).zip(answers.chunks_exact(4));
    for (place, (call, answer)) in (0u32..).zip(each) {
        printing::print_line(output, b'C', call)?;
        printing::print_line(
            output,
            b'A',
            &[place, answer[0], answer[1], answer[2], answer[3]],
        )?;
        print_records(output, log, place)?;
    }
    Ok(())
}
