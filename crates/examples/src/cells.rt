// Words and cells that are lent to a call: what they hold before, and the sum of the cells afterwards; words that are read
// or copied.
use table_words::{Cell, cell_count};

// The cells that two tables of 256 tips and 1024 nodes need.
pub(crate) const MOST_CELLS: usize = 1046529;

// What a word holds before a call that writes words: 9000, 9001, .., and again after 1024.
pub(crate) fn word_before(i: usize) -> u16 {
    (9000 + i % 1024) as u16
}

// What a cell holds before a call whose every cell is printed: 200, 201, .., 255 and again.
pub(crate) fn cell_before(i: usize) -> Cell {
    (200 + i % 56) as Cell
}

// Puts into each place of what is lent what it holds before a call.
pub(crate) fn fill<T: Drop, F: Fn(usize) -> T>(lent: &mut [T], before: F)
    requires { F.IsAlwaysCallable before }
{
    for (i, place) in lent.iter_mut().enumerate() {
        *place = before(i);
    }
}

// The word at a place, or 0 where there is none.
pub(crate) fn word_at(words: &[u16], i: usize) -> u16 {
    if i < words.len() { words[i] } else { 0 }
}

// As many words in the cells as there are cells.
pub(crate) fn copy(words: &[u16], cells: &mut [u16]) {
    if words.len() < cells.len() {
        return;
    }
    cells.copy_from_slice(&words[..cells.len()]);
}

// x + y, or the largest number where that is too large.
pub(crate) fn plus(x: u64, y: u64) -> u64 {
    if 18446744073709551615 - x < y {
        return 18446744073709551615;
    }
    x + y
}

pub(crate) fn sum_of(cells: &[Cell]) -> u64 {
    cells
        .iter()
        .fold(0, |sum, cell| plus(sum, cell_count(*cell)))
}
