// Lines of a session: a letter and so many numbers, each after a tab.
ghost use Rattle.std.specs.Prelude.{◌≡◌, ◌-◌, ◌<◌, length, drop, IfSome};

// What a line says, if it says something.
#[derive(Clone, Copy)]
pub enum Line {
    Call([u32; 4]),
    Change(Change),
}

// What changes the session, and so ends the run before it. The table of a word is the number that was read, since the
// line is printed even where there is no such table.
#[derive(Clone, Copy)]
pub enum Change {
    Begin {
        slots: u32,
        ports: u32,
        heads: u32,
        records: u32,
    },
    Records(u32),
    Word {
        table: u32,
        at: u32,
        word: u32,
    },
}

// The number that some digits say, which is 0 where there are none. None where a byte is no digit, or the number is
// past every word. The digits are read by hand, for std's `parse` takes a sign and refuses the empty text.
fn number(digits: &[u8]) -> Option<u32> {
    let mut n: u32 = 0;
    for byte in digits {
        let digit = char::from(*byte).to_digit(10)?;
        n = n.checked_mul(10)?.checked_add(digit)?;
    }
    Some(n)
}

// The numbers that follow a letter, each after a tab. None where there are not just so many.
fn numbers<const N: usize>(text: &[u8]) -> Option<[u32; N]> {
    let mut parts = text.split(|byte| *byte == b'\t');
    if !parts.next()?.is_empty() {
        return None;
    }
    let mut words = [0u32; N];
    for word in &mut words {
        *word = number(parts.next()?)?;
    }
    if parts.next().is_some() {
        return None;
    }
    Some(words)
}

// What a line says: None where it has not just the numbers of its letter, or a letter that means nothing.
fn parse(line: &[u8]) -> Option<Line> {
    let (letter, rest) = line.split_first()?;
    match *letter {
        b'S' => {
            let [slots, ports, heads, records] = numbers::<4>(rest)?;
            Some(Line::Change(Change::Begin {
                slots,
                ports,
                heads,
                records,
            }))
        }
        b'N' => {
            let [records] = numbers::<1>(rest)?;
            Some(Line::Change(Change::Records(records)))
        }
        b'C' => Some(Line::Call(numbers(rest)?)),
        b'W' => {
            let [table, at, word] = numbers::<3>(rest)?;
            Some(Line::Change(Change::Word { table, at, word }))
        }
        _ => None,
    }
}

// The first line of a text, which ends with a newline or with the text, or none where it is to be skipped; and what
// follows it. None where there is no text left.
pub fn read_line(text: &[u8]) -> Option<(Option<Line>, &[u8])>
    ensures less { IfSome result (λ parts. length parts.1.now < length text.now) }
    ensures rest { IfSome result (λ parts. parts.1.now ≡ drop (length text.now - length parts.1.now) text.now) }
{
    if text.is_empty() {
        return None;
    }
    let end = text
        .iter()
        .position(|byte| *byte == b'\n')
        .unwrap_or(text.len());
    let after = text.len().min(end + 1);
    Some((parse(&text[..end]), &text[after..]))
}
