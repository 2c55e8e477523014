// Lines of calls: four numbers parted by tabs, each line ended.
ghost use Rattle.std.specs.Prelude.{◌≤◌, length};
ghost use Rattle.text.specs.Parts.{Digit, FieldRead, LineRead, TextRead};

use crate::numbers;
use calls::Call;
use slabs::rows::write_row;

const MOST_CALLS: u32 = 256;

// The first bad line of a text, counted from 1.
#[derive(Clone, Copy, Debug, PartialEq, Eq)]
pub struct BadLine {
    pub line: u32,
}

// A number that this byte ends, and the place after the byte.
fn read_field(s: &[u8], at: usize, end: u8) -> Option<(u32, usize)>
    requires { (at ≤ length s.now) × (Digit end → ⊥) }
    ensures { FieldRead s.now at end result }
{
    let (x, next) = numbers::read_number(s, at)?;
    if s.get(next) == Some(&end) {
        Some((x, next + 1))
    } else {
        None
    }
}

// A line, four numbers each with the byte that ends it, and the place after the line.
fn read_line(s: &[u8], at: usize) -> Option<(Call, usize)>
    requires { at ≤ length s.now }
    ensures { LineRead s.now at result }
{
    let (n, second) = read_field(s, at, b'\t')?;
    let (a, third) = read_field(s, second, b'\t')?;
    let (b, fourth) = read_field(s, third, b'\t')?;
    let (c, next) = read_field(s, fourth, b'\n')?;
    Some((Call { n, a, b, c }, next))
}

// Reads every line, 256 at the most, and says how many. The words go to an array that is lent whole, for every word of it is spoken of,
// after a bad line too.
pub fn read_calls(s: &[u8], calls: &mut [u32; 1024]) -> Result<u32, BadLine>
    ensures { TextRead s.now calls.old calls.new result }
{
    let mut at = 0;
    let mut n = 0;
    // By places and not by an iterator of lines, for a number is read at a place of the whole text (`NumberRead`).
    while at < s.len() {
        if n == MOST_CALLS {
            return Err(BadLine { line: n + 1 });
        }
        let (call, next) = read_line(s, at).ok_or(BadLine { line: n + 1 })?;
        // A call's words are put down once, here: no `From` would be plainer.
        write_row(calls, n as usize, [call.n, call.a, call.b, call.c]);
        at = next;
        n += 1;
    }
    Ok(n)
}
