// The crossing of two codes, from the crossings of their edges: `base` is where the row of the first edge begins,
// `c` the column of the second. It is a word, as n is: 256 labels may be counted.
ghost use Rattle.std.specs.Prelude.{◌≡◌, ◌+◌, ◌-◌, ◌≤◌};
ghost use Rattle.table_words.specs.Sizes.{tips_most};
ghost use Rattle.tree_check.specs.Table.{word};
ghost use Rattle.claims.specs.lemmas.CodeCells.{CellRoom};

use table_words::{Cell, cell_word};

// Beyond both edges.
pub(crate) fn both(work: &[Cell], base: usize, c: usize) -> u16
    requires { CellRoom work.now base c }
    ensures { (result ≡ word work.now (base + c)) × (result ≤ tips_most) }
{
    cell_word(work[base + c])
}

// Beyond the first edge and not beyond the second.
pub(crate) fn first_only(work: &[Cell], base: usize, c: usize) -> u16
    requires { CellRoom work.now base c }
    ensures { (result ≡ word work.now base - word work.now (base + c)) × (result ≤ tips_most) }
{
    cell_word(work[base] - work[base + c])
}

// Beyond the second edge and not beyond the first.
pub(crate) fn second_only(work: &[Cell], base: usize, c: usize) -> u16
    requires { CellRoom work.now base c }
    ensures { (result ≡ word work.now c - word work.now (base + c)) × (result ≤ tips_most) }
{
    cell_word(work[c] - work[base + c])
}

// Beyond neither, of n labels.
pub(crate) fn neither(work: &[Cell], base: usize, c: usize, n: u16) -> u16
    requires cell_room { CellRoom work.now base c × (n ≤ tips_most) }
    requires fits { word work.now base + word work.now c ≤ n + word work.now (base + c) }
    ensures { (result ≡ n + word work.now (base + c) - word work.now base - word work.now c)
        × (result ≤ tips_most) }
{
    n + cell_word(work[base + c]) - cell_word(work[base]) - cell_word(work[c])
}
