// The transcript's lines: a letter and numbers, each after a tab.
ghost use Rattle.std.specs.Prelude.{◌≡◌, ◌≤◌, ◌∷◌, ◌++◌, length, OnOk};
ghost use Rattle.std.specs.Io.KnownBytes.{Appends};
ghost use Rattle.text.specs.Decimal.{fields};
ghost use Rattle.text.specs.Lines.{newline};

use arrayvec::ArrayVec;
use std::io::{self, Write};
use text::output::put_line;

// The most numbers that a line has.
const MOST: usize = 5;

// Prints a line. The letter is the byte that stands there. Five numbers have room: it has 57 bytes then at the most.
pub fn print_line<W: Write>(output: &mut W, letter: u8, words: &[u32]) -> io::Result<()>
    ensures { OnOk result (length words.now ≤ 5 → Appends (W.contents output.old) (W.contents output.new) ((letter ∷ fields words.now) ++ newline)) }
{
    let mut line = ArrayVec::<u8, 64>::new();
    put_line(&mut line, letter, &words[..words.len().min(MOST)]);
    output.write_all(line.as_slice())
}
