// The desk's text: lines of calls in, lines of answers and records out.
#![tactic(auto)]

ghost use Rattle.std.specs.Prelude.{◌≡◌, ◌*◌, ◌≤◌, length};
ghost use Rattle.run.specs.Run.{midway};
ghost use Rattle.text.specs.Lines.{desk_lent, midway_lines, Printed};
ghost use Rattle.text.specs.Parts.{Written};

pub mod input;
pub mod numbers;
pub mod output;

use edits::store::Tables;
use slabs::counters::Counters;

// What the desk prints: the first `len` bytes.
#[derive(Clone, Copy)]
pub struct Page {
    pub bytes: [u8; 32768],
    pub len: usize,
}

// Answers a text of calls over an empty store, whose room `desk_lent` names. A page has room for every line that 256 calls can give. Its
// bytes are lent to those that write them, so that there is one page and no copy of it.
pub fn desk(text: &[u8]) -> Page
    ensures { Printed text.now result }
{
    let mut calls = [0u32; 1024];
    let mut bytes = [0u8; 32768];
    match input::read_calls(text, &mut calls) {
        Ok(n) => {
            let len = answer(&calls[..4 * n as usize], n, &mut bytes);
            Page { bytes, len }
        }
        Err(first) => {
            let len = output::put_error(&mut bytes, first.line);
            Page { bytes, len }
        }
    }
}

// Runs the calls and puts the lines that they give, and says how many bytes those are. Their number was counted as they were read, and is
// not divided out again.
fn answer(calls: &[u32], n: u32, out: &mut [u8; 32768]) -> usize
    requires { (length calls.now ≡ 4 * n) × (n ≤ 256) }
    ensures { Written (midway_lines (midway (desk_lent calls.now) n) n) out.old out.new result }
{
    let mut slots = [0u32; 256];
    let mut links = [0u32; 512];
    let mut owners = [0u32; 512];
    let mut heads = [0u32; 128];
    let mut scratch = [0u32; 576];
    let mut answers = [0u32; 1024];
    let mut log = [0u32; 2048];
    let mut tables = Tables {
        slots: &mut slots,
        links: &mut links,
        owners: &mut owners,
        heads: &mut heads,
    };
    let ran = run::run(
        &mut tables,
        &mut scratch,
        calls,
        &mut answers,
        &mut log,
        Counters::none_counted(),
    );
    output::put_run(out, &answers, &log, n, ran.records.unwrap_or(0))
}
