// Decimal numbers in a text.
ghost use Rattle.std.specs.Prelude.{ℕ, ◌≡◌, ◌≤◌, ◌<◌, ◌^◌, length, MatchOption};
ghost use Rattle.text.specs.Decimal.{decimal};
ghost use Rattle.text.specs.Parts.{AllDigits, DigitsAt, NumberRead};

// How many digits stand from `at` on, counted up to 11: no number that is read has more than 10. The slice is cut to them, to save time:
// with `take(11)` the compiler writes the loop out eleven times, and such a function is called and not put in its caller's place.
fn count_digits(s: &[u8], at: usize) -> usize
    requires { at ≤ length s.now }
    ensures { DigitsAt s.now at result }
{
    let end = s.len().min(at + 11);
    s[at..end]
        .iter()
        .take_while(|byte| byte.is_ascii_digit())
        .count()
}

// The number that a run of digits says: no needless zero in front, at most 4,294,967,295. It is read by hand, to save time: with std's
// `parse` the bytes are gone over three times, to count the digits, to see that they are a text, and to read them.
fn value(run: &[u8]) -> Option<u32>
    requires { AllDigits run.now }
    ensures { MatchOption result ((v : ℕ) → v < 2 ^ 32 → decimal v ≡ run.now → ⊥) (λ v. decimal v ≡ run.now) }
{
    // No number that is read has more digits, and so the sum fits.
    if 10 < run.len() {
        return None;
    }
    match run {
        [] => None,
        [b'0', _, ..] => None,
        [first, rest @ ..] => {
            let mut sum = u64::from(*first - b'0');
            for byte in rest {
                sum = sum * 10 + u64::from(*byte - b'0');
            }
            u32::try_from(sum).ok()
        }
    }
}

// Reads a number, and says where it ends: a place in the whole text, as the definitions have it.
pub fn read_number(s: &[u8], at: usize) -> Option<(u32, usize)>
    requires { at ≤ length s.now }
    ensures { NumberRead s.now at result }
{
    let next = at + count_digits(s, at);
    Some((value(&s[at..next])?, next))
}
