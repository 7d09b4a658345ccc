// The words of tables and the cells of the work: their sizes, and the numbers that code makes of them.
// specs/Sizes has the same sizes for contracts.
#![tactic(auto)]

mod cutting; // cutting.rt: how many words a table takes of those that begin with it

ghost use Rattle.std.specs.Prelude.{◌≡◌, ◌%◌, ◌≤◌};
ghost use Rattle.table_words.specs.Sizes.{cell_most};

pub use cutting::table_length;

// The most tips of a tree.
pub const TIPS: usize = 256;

// The most nodes of a tree.
pub const MOST_NODES: usize = 1024;

// The label of an inner node.
pub const INNER: usize = 65535;

// The length of an array that has a cell for each node, or for each label. Arrays have the room of the largest tree and stand beside a number
// of cells, since nothing is allocated.
pub const NODES: usize = 1024;

// The length of an array that holds the words of any table.
pub const TABLE_WORDS: usize = 2 + 2 * NODES;

// The length of an array that has a cell for where the directed edges into each node begin, and one for their end.
pub const STARTS: usize = 1025;

// The length of an array that has a cell for each directed edge.
pub const CODES: usize = 2048;

// A cell of the work: how many labels lie beyond two edges. Label 0 lies beyond none, so they are 255 at most.
pub type Cell = u8;

// A cell as a word.
// The three beside `From`: their clauses say what a cell holds at most, as the edit a_cell_holds_254_at_most shows.
pub fn cell_word(x: Cell) -> u16
    ensures { (result ≡ x) × (result ≤ cell_most) }
{
    x as u16
}

// A cell as an index.
pub fn cell_index(x: Cell) -> usize
    ensures { (result ≡ x) × (result ≤ cell_most) }
{
    x as usize
}

// A cell as a count.
pub fn cell_count(x: Cell) -> u64
    ensures { (result ≡ x) × (result ≤ cell_most) }
{
    x as u64
}

// An index as a word, modulo 2^16.
// It cuts, so that it is no `From`.
pub fn as_word(x: usize) -> u16
    ensures { result ≡ x % 65536 }
{
    (x % 65536) as u16
}

// An index as a cell, modulo 2^8.
// It cuts, so that it is no `From`.
pub fn as_cell(x: usize) -> Cell
    ensures { result ≡ x % 256 }
{
    (x % 256) as Cell
}
