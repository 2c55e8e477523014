// Rows of a table: so many words each, one after the other.
ghost use Rattle.std.specs.Prelude.{◌≡◌, ◌+◌, ◌*◌, ◌≤◌, length};
ghost use Rattle.slabs.specs.Rows.{row_at, set_row};

// Reads row number `row`.
pub fn read_row<const WIDTH: usize>(table: &[u32], row: usize) -> [u32; WIDTH]
    requires { WIDTH * row + WIDTH ≤ length table.now }
    ensures { result ≡ row_at table.now WIDTH row }
{
    // Word by word, which the compiler turns into loads of the words that are used. std's `copy_from_slice` tests first whether the two
    // overlap, and keeps a copy in memory.
    let start = WIDTH * row;
    let held = &table[start..start + WIDTH];
    let mut words = [0; WIDTH];
    for i in 0..WIDTH {
        words[i] = held[i];
    }
    words
}

// Writes row number `row`.
pub fn write_row<const WIDTH: usize>(table: &mut [u32], row: usize, words: [u32; WIDTH])
    requires { WIDTH * row + WIDTH ≤ length table.old }
    ensures { table.new ≡ set_row table.old WIDTH row words.entry }
{
    let start = WIDTH * row;
    let place = &mut table[start..start + WIDTH];
    for k in 0..WIDTH {
        place[k] = words[k];
    }
}
