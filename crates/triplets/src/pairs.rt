// What pairs of edges add to twice A and to B.
ghost use Rattle.std.specs.Prelude.{◌≡◌, ◌≤◌, ◌<◌, ◌-◌, length};
ghost use Rattle.shapes.specs.theorems.TripletCounts.{alike_term, apart_term};
ghost use Rattle.triplets.specs.lemmas.PairCells.{Nested, CrossedCells, alike_row, triplets_apart_row, alike_sum, apart_sum};
ghost use Rattle.triplets.specs.lemmas.ListedColumns.{ColumnRoom, AllListed};
ghost use Rattle.triplets.specs.lemmas.ListedRows.{FourCells, RowCells, alike_at, apart_at, alike_listed, apart_listed};

use super::columns::list_columns;
use table_words::{Cell, NODES, cell_count};

// Few nodes.
const FEW: usize = 128;

// What pairs of edges add to twice A, and to B.
#[derive(Clone, Copy)]
pub(crate) struct PairTerms {
    pub alike: u64,
    pub apart: u64,
}

// Two labels beyond both edges, and a third that leaves at both: i labels lie beyond both edges, r beyond the first and the
// second's parent, c beyond the first's parent and the second, w beyond both parents.
fn alike_term(i: u64, r: u64, c: u64, w: u64) -> u64
    requires { Nested i r c w }
    ensures { result ≡ alike_term i r c w }
{
    (i * i - i) * (w + i - r - c)
}

// One label beyond both edges, one that leaves at the second alone, one that leaves at the first alone.
fn apart_term(i: u64, r: u64, c: u64) -> u64
    requires { (i ≤ r) × (i ≤ c) × (r ≤ 256) × (c ≤ 256) }
    ensures { result ≡ apart_term i r c }
{
    i * ((r - i) * (c - i))
}

// The terms of row and column: the row begins at `base`, its parent's at `up`; the column is l, its parent's p.
fn cell_terms(work: &[Cell], base: usize, up: usize, l: usize, p: usize) -> PairTerms
    requires { FourCells work.now base up l p }
    ensures { (result.alike ≡ alike_at work.now base up l p) × (result.apart ≡ apart_at work.now base up l p) }
{
    let i = cell_count(work[base + l]);
    let r = cell_count(work[base + p]);
    let c = cell_count(work[up + l]);
    let w = cell_count(work[up + p]);
    PairTerms {
        alike: alike_term(i, r, c, w),
        apart: apart_term(i, r, c),
    }
}

// A row with the listed columns: the row begins at `base`, its parent's at `up`.
fn row_terms(
    work: &[Cell],
    base: usize,
    up: usize,
    columns: &[usize],
    above: &[usize],
    count: usize,
) -> PairTerms
    requires { RowCells work.now base up columns.now above.now count }
    ensures { (result.alike ≡ alike_listed work.now base up columns.now above.now count)
        × (result.apart ≡ apart_listed work.now base up columns.now above.now count) }
{
    let mut alike = 0u64;
    let mut apart = 0u64;
    for q in 0..count {
        let terms = cell_terms(work, base, up, columns[q], above[q]);
        alike += terms.alike;
        apart += terms.apart;
    }
    PairTerms { alike, apart }
}

// A row with every column from the second on. A row of one label adds nothing.
fn row_sums(
    work: &[Cell],
    row: usize,
    first_parents: &[u16],
    second_parents: &[u16],
    columns: &[usize],
    above: &[usize],
    count: usize,
) -> PairTerms
    requires { CrossedCells work.now first_parents.now second_parents.now
        × AllListed work.now second_parents.now count columns.now above.now
        × (1 ≤ row) × (row < length first_parents.now - 1) }
    ensures { (result.alike ≡ alike_row work.now first_parents.now second_parents.now row)
        × (result.apart ≡ triplets_apart_row work.now first_parents.now second_parents.now row) }
{
    let width = second_parents.len() - 1;
    let base = row * width;
    if cell_count(work[base]) < 2 {
        return PairTerms { alike: 0, apart: 0 };
    }
    let up = (usize::from(first_parents[row + 1]) - 1) * width;
    row_terms(work, base, up, columns, above, count)
}

// All rows from the second on.
fn pair_terms(
    work: &[Cell],
    first_parents: &[u16],
    second_parents: &[u16],
    columns: &[usize],
    above: &[usize],
    count: usize,
) -> PairTerms
    requires { CrossedCells work.now first_parents.now second_parents.now
        × AllListed work.now second_parents.now count columns.now above.now }
    ensures { (result.alike ≡ alike_sum work.now first_parents.now second_parents.now)
        × (result.apart ≡ apart_sum work.now first_parents.now second_parents.now) }
{
    let last = first_parents.len() - 2;
    let mut alike = 0u64;
    let mut apart = 0u64;
    for i in 0..last {
        let row = row_sums(
            work,
            i + 1,
            first_parents,
            second_parents,
            columns,
            above,
            count,
        );
        alike += row.alike;
        apart += row.apart;
    }
    PairTerms { alike, apart }
}

// The same, with the columns listed in `columns` and `above`.
fn listed_sums(
    work: &[Cell],
    first_parents: &[u16],
    second_parents: &[u16],
    columns: &mut [usize],
    above: &mut [usize],
) -> PairTerms
    requires { CrossedCells work.now first_parents.now second_parents.now
        × ColumnRoom work.now second_parents.now columns.old above.old }
    ensures { (result.alike ≡ alike_sum work.now first_parents.now second_parents.now)
        × (result.apart ≡ apart_sum work.now first_parents.now second_parents.now) }
{
    let count = list_columns(work, second_parents, columns, above);
    pair_terms(work, first_parents, second_parents, columns, above, count)
}

// The same. Where the second tree has few nodes, short lists are enough.
pub(crate) fn pair_sums(work: &[Cell], first_parents: &[u16], second_parents: &[u16]) -> PairTerms
    requires { CrossedCells work.now first_parents.now second_parents.now }
    ensures { (result.alike ≡ alike_sum work.now first_parents.now second_parents.now)
        × (result.apart ≡ apart_sum work.now first_parents.now second_parents.now) }
{
    if second_parents.len() <= FEW {
        let mut columns = [0usize; FEW];
        let mut above = [0usize; FEW];
        return listed_sums(
            work,
            first_parents,
            second_parents,
            &mut columns,
            &mut above,
        );
    }
    let mut columns = [0usize; NODES];
    let mut above = [0usize; NODES];
    listed_sums(
        work,
        first_parents,
        second_parents,
        &mut columns,
        &mut above,
    )
}
