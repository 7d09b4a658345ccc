// Splits counted in the cells: rows whose first column and first row are the sizes. Of the labels, `kept` are counted.
ghost use Rattle.std.specs.Prelude.{Bool, ◌&&◌, ◌≡◌, ℕ, ◌+◌, ◌-◌, ◌≤◌, ◌<◌, eqb, length};
ghost use Rattle.sums.specs.Counts.{count};
ghost use Rattle.sums.specs.Tests.{some};
ghost use Rattle.tree_pairs.specs.lemmas.EdgeRows.{EdgeRoom};
ghost use Rattle.splits.specs.lemmas.SplitCells.{split_size, new_size, half_row, new_edge, edge_splits};
ghost use Rattle.splits.specs.lemmas.SplitCells.{shared_row, apart_row, occurs_row, common_row, common_rows};
ghost use Rattle.splits.specs.lemmas.SplitLoops.{RowsRoom, SplitRowRoom};

use table_words::{Cell, cell_count};

// How many of the indices before `len` pass a test. Each is looked at, so that several are tested at a time.
fn count_of<F: Fn(usize) -> bool>(len: usize, test: F) -> u16
    requires few { len ≤ 65535 }
    requires callable { (i : ℕ) → i < len → F.pre test i }
    ensures { (q : ℕ → Bool) → ((i : ℕ) (b : Bool) → i < len → F.post test i b → b ≡ q i)
        → result ≡ count len q }
{
    let mut total = 0u16;
    for i in 0..len {
        if test(i) {
            total += 1;
        }
    }
    total
}

// Whether an edge with `size` of the kept labels beyond it is a split.
pub(crate) fn is_split(size: Cell, kept: u64) -> bool
    ensures { result ≡ split_size kept size }
{
    let s = cell_count(size);
    if s < 2 {
        return false;
    }
    s + 2 <= kept
}

// Whether an edge with `size` labels beyond it is a split, and the edge above, with `above` labels, has other label sets.
pub(crate) fn is_new(size: Cell, above: Cell, kept: u64) -> bool
    ensures { result ≡ new_size kept size above }
{
    if size == above {
        return false;
    }
    is_split(size, kept)
}

// Whether two edges, with x and y labels beyond them, leave one node and have all kept labels beyond them.
fn are_halves(one_parent: u16, other_parent: u16, x: Cell, y: Cell, kept: u64) -> bool
    ensures { result ≡ (eqb one_parent other_parent && eqb (x + y) kept) }
{
    if one_parent != other_parent {
        return false;
    }
    cell_count(x) + cell_count(y) == kept
}

// Whether an edge before that of `row` leaves the same node and has the other kept labels beyond it.
fn has_half(work: &[Cell], step: usize, parents: &[u16], row: usize, kept: u64) -> bool
    requires { EdgeRoom (length work.now) step parents.now × (row < length parents.now - 1) }
    ensures { result ≡ some row (half_row kept work.now step parents.now row) }
{
    for k in 0..row {
        if are_halves(
            parents[k + 1],
            parents[row + 1],
            work[k * step],
            work[row * step],
            kept,
        ) {
            return true;
        }
    }
    false
}

// Whether the edge of row `i + 1` is a split, and the first with its label sets. Two edges from one node have all kept
// labels beyond them only if the edge above has.
fn is_first(work: &[Cell], step: usize, parents: &[u16], i: usize, kept: u64) -> bool
    requires { EdgeRoom (length work.now) step parents.now × (i < length parents.now - 2) }
    ensures { result ≡ new_edge kept work.now step parents.now i }
{
    let up = usize::from(parents[i + 2]) - 1;
    let above = work[up * step];
    if !is_new(work[(i + 1) * step], above, kept) {
        return false;
    }
    if cell_count(above) != kept {
        return true;
    }
    if has_half(work, step, parents, i + 1, kept) {
        return false;
    }
    true
}

// How many edges from edge 2 on are splits, each pair of label sets once. The size of each edge is `step` cells after that
// of the edge before.
pub(crate) fn edge_splits(work: &[Cell], step: usize, parents: &[u16], kept: u64) -> u16
    requires { EdgeRoom (length work.now) step parents.now }
    ensures { result ≡ edge_splits kept work.now step parents.now }
{
    count_of(
        parents.len() - 2,
        |i| is_first(work, step, parents, i, kept),
    )
}

// Whether x is y and z.
fn is_both(x: Cell, y: Cell, z: Cell) -> bool
    ensures { result ≡ (eqb x y && eqb x z) }
{
    if x != y {
        return false;
    }
    x == z
}

// Whether a cell of the row that begins at `base` has the row's size and the column's.
pub(crate) fn shared_row(work: &[Cell], base: usize, width: usize) -> bool
    requires { SplitRowRoom (length work.now) base width }
    ensures { result ≡ shared_row width work.now base }
{
    count_of(width, |j| is_both(work[base + j], work[base], work[j])) != 0
}

// Whether no label lies beyond both of two edges, and every kept label beyond one: the cell, and the two sizes.
fn is_apart(cell: Cell, x: Cell, y: Cell, kept: u64) -> bool
    ensures { result ≡ (eqb cell 0 && eqb (x + y) kept) }
{
    if cell != 0 {
        return false;
    }
    cell_count(x) + cell_count(y) == kept
}

// Whether some column has beyond it the kept labels that the row that begins at `base` has not.
pub(crate) fn apart_row(work: &[Cell], base: usize, width: usize, kept: u64) -> bool
    requires { SplitRowRoom (length work.now) base width }
    ensures { result ≡ apart_row kept width work.now base }
{
    count_of(
        width,
        |j| is_apart(work[base + j], work[base], work[j], kept),
    ) != 0
}

// Whether the row that begins at `base` has the label sets of some column. They are turned round only if all kept labels lie
// beyond edge 1.
fn occurs_row(work: &[Cell], base: usize, width: usize, kept: u64) -> bool
    requires { SplitRowRoom (length work.now) base width × (1 ≤ width) }
    ensures { result ≡ occurs_row kept width work.now base }
{
    if shared_row(work, base, width) {
        return true;
    }
    if cell_count(work[0]) != kept {
        return false;
    }
    apart_row(work, base, width, kept)
}

// Whether row `i + 1` is a split of both trees, and the first with its label sets.
fn is_common(work: &[Cell], width: usize, parents: &[u16], i: usize, kept: u64) -> bool
    requires { EdgeRoom (length work.now) width parents.now × RowsRoom (length work.now) width parents.now
        × (i < length parents.now - 2) }
    ensures { result ≡ common_row kept work.now width parents.now i }
{
    if !is_first(work, width, parents, i, kept) {
        return false;
    }
    occurs_row(work, (i + 1) * width, width, kept)
}

// How many rows from the second on are splits of both trees, each pair of label sets once.
pub(crate) fn common_rows(work: &[Cell], width: usize, parents: &[u16], kept: u64) -> u16
    requires { EdgeRoom (length work.now) width parents.now × RowsRoom (length work.now) width parents.now }
    ensures { result ≡ common_rows kept work.now width parents.now }
{
    count_of(
        parents.len() - 2,
        |i| is_common(work, width, parents, i, kept),
    )
}
