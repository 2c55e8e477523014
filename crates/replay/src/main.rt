// Replays recorded sessions: S, N, C and W lines on standard input, the transcript on standard output.
#![tactic(auto)]

mod lines;
mod printing;
mod runs;
mod sessions;

use edits::store::Tables;
use input::read_full;
use std::io::{self, Read, Write};

// Reads the input, as far as there is room for it, and replays it in these tables. The text stands in an array with the
// number of its bytes beside it, for nothing here is on the heap.
fn replay_input<R: Read, W: Write>(
    input: &mut R,
    output: &mut W,
    text: &mut [u8],
    tables: &mut Tables<'_>,
    scratch: &mut [u32],
    log: &mut [u32],
) -> io::Result<()> {
    let n = read_full(input, text)?;
    sessions::replay(output, &text[..n], tables, scratch, log)
}

// Lends the tables as slices. `main` leaves that to this function, which has their lengths from their types: in `main`
// they would be counted word by word, up to a million.
fn lend<R: Read, W: Write>(
    input: &mut R,
    output: &mut W,
    text: &mut [u8; 1048576],
    slots: &mut [u32; 16384],
    links: &mut [u32; 65536],
    owners: &mut [u32; 65536],
    heads: &mut [u32; 32768],
    scratch: &mut [u32; 69632],
    log: &mut [u32; 262144],
) -> io::Result<()> {
    let mut tables = Tables {
        slots,
        links,
        owners,
        heads,
    };
    replay_input(input, output, text, &mut tables, scratch, log)
}

// The largest room: 4,096 slots, 65,536 ports, 32,768 heads, 65,536 records, and an input of 1,048,576 bytes.
fn main(rt: HostRuntime) -> io::Result<()> {
    let mut text = [0u8; 1048576];
    let mut slots = [0u32; 16384];
    let mut links = [0u32; 65536];
    let mut owners = [0u32; 65536];
    let mut heads = [0u32; 32768];
    let mut scratch = [0u32; 69632];
    let mut log = [0u32; 262144];
    lend(
        &mut rt.stdin(),
        &mut rt.stdout(),
        &mut text,
        &mut slots,
        &mut links,
        &mut owners,
        &mut heads,
        &mut scratch,
        &mut log,
    )
}
