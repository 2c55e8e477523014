// Runs of words in a table.
ghost use Rattle.std.specs.Prelude.{◌+◌, ◌≤◌, length};
ghost use Rattle.audit.specs.Decides.{Decides};
ghost use Rattle.audit.specs.Parts.{BlankFrom, RunIs, Claim};

// Whether every word from `from` on is 0.
pub fn blank_from(table: &[u32], from: usize) -> bool
    ensures { Decides result (BlankFrom table.now from) }
{
    table[from.min(table.len())..].iter().all(|word| *word == 0)
}

// Whether n words from `first` on are this word: places of the whole table, as `RunIs` has them.
pub fn run_is(table: &[u32], first: usize, n: usize, word: u32) -> bool
    requires { first + n ≤ length table.now }
    ensures { Decides result (RunIs table.now first n word) }
{
    // A loop, since most runs are short, and `all` tests twice whether one is over.
    for i in 0..n {
        if table[first + i] != word {
            return false;
        }
    }
    true
}

// Takes n places from `first` on: each must be 0 and becomes 1. It works over the whole table with a place and a number, for its promise
// says that the words outside stay.
pub fn claim(scratch: &mut [u32], first: usize, n: usize) -> bool
    requires { first + n ≤ length scratch.old }
    ensures { Claim scratch.old first n scratch.new result }
{
    for place in &mut scratch[first..first + n] {
        if *place != 0 {
            return false;
        }
        *place = 1;
    }
    true
}
