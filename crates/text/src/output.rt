// Lines of answers and records.
ghost use Rattle.std.specs.Prelude.{◌≡◌, ◌∷◌, ◌++◌, ◌+◌, ◌*◌, ◌/◌, ◌≤◌, length};
ghost use Rattle.arrayvec.specs.ArrayVec.{array_vec_len};
ghost use Rattle.text.specs.Decimal.{decimal, fields};
ghost use Rattle.text.specs.Lines.{newline, record_lines, run_lines, error_line};
ghost use Rattle.text.specs.Parts.{Put, Written};

use arrayvec::ArrayVec;
use itoa::Buffer;

// Writes a number.
fn put_number<const ROOM: usize>(out: &mut ArrayVec<u8, ROOM>, x: u32)
    requires { array_vec_len out.old + length (decimal x) ≤ ROOM }
    ensures { out.new.items ≡ out.old.items ++ decimal x }
{
    let mut digits = Buffer::new();
    let _fits = out.try_extend_from_slice(digits.format(x).as_bytes());
}

// Writes a line: a letter, and numbers, each behind a tab. The letter is the byte that stands there.
pub fn put_line<const ROOM: usize>(out: &mut ArrayVec<u8, ROOM>, letter: u8, words: &[u32])
    requires { array_vec_len out.old + length (fields words.now) + 2 ≤ ROOM }
    ensures { out.new.items ≡ out.old.items ++ ((letter ∷ fields words.now) ++ newline) }
{
    out.push(letter);
    for word in words {
        out.push(b'\t');
        put_number(out, *word);
    }
    out.push(b'\n');
}

// Puts a line into the page from a place on, and says where the next goes. Five numbers have room in the vector that it is put together in.
fn put_at(out: &mut [u8; 32768], at: usize, letter: u8, words: &[u32]) -> usize
    requires { (at + length (fields words.now) + 2 ≤ 32768) × (length words.now ≤ 5) }
    ensures { Put ((letter ∷ fields words.now) ++ newline) out.old at out.new result }
{
    let mut line = ArrayVec::<u8, 64>::new();
    put_line(&mut line, letter, words);
    let end = at + line.len();
    out[at..end].copy_from_slice(line.as_slice());
    end
}

// E and the number of the first bad line.
pub fn put_error(out: &mut [u8; 32768], line: u32) -> usize
    ensures { Written (error_line line) out.old out.new result }
{
    put_at(out, 0, b'E', &[line])
}

// The records of one call, those of its place: R, place, kind, old and new.
fn put_records(out: &mut [u8; 32768], from: usize, log: &[u32], place: u32) -> usize
    requires { from + length (record_lines log.now place (length log.now / 4)) ≤ 32768 }
    ensures { Put (record_lines log.now place (length log.now / 4)) out.old from out.new result }
{
    let mut at = from;
    for record in log.chunks_exact(4) {
        if record[0] != place {
            continue;
        }
        at = put_at(out, at, b'R', record);
    }
    at
}

// Each call's answer, A, place, code and three values, then its records. 256 answers and 512 records fit: 50 bytes and 39 bytes
// at the most. The two numbers say how far the tables are read, for the lines are promised of whole tables.
pub fn put_run(out: &mut [u8; 32768], answers: &[u32], log: &[u32], n: u32, records: u32) -> usize
    requires n_bound { (n ≤ 256) × (4 * n ≤ length answers.now) }
    requires records_bound { (records ≤ 512) × (4 * records ≤ length log.now) }
    ensures { Written (run_lines answers.now log.now records n) out.old out.new result }
{
    let written = &log[..4 * records as usize];
    let mut at = 0;
    for (place, answer) in (0..n).zip(answers.chunks_exact(4)) {
        let next = put_at(
            out,
            at,
            b'A',
            &[place, answer[0], answer[1], answer[2], answer[3]],
        );
        at = put_records(out, next, written, place);
    }
    at
}
