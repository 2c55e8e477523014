// The desk: lines of calls on standard input, lines of answers and records, or the first bad line, on standard output.
#![tactic(auto)]

use input::read_full;
use std::io::{self, Write};

// Reads at most 11,265 bytes. A good line has at most 44: four numbers of ten digits, three tabs and the newline. So 256 good lines
// have at most 11,264, and in a longer text some line among the first 257 is bad: what is read already says which. The bytes stand in
// an array with their number beside it, for nothing here is on the heap.
fn main(rt: HostRuntime) -> io::Result<()> {
    let mut text = [0u8; 11265];
    let n = read_full(&mut rt.stdin(), &mut text)?;
    let page = text::desk(&text[..n]);
    rt.stdout().write_all(&page.bytes[..page.len])
}
