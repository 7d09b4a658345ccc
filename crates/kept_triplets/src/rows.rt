// What pairs of edges add, row by row: the totals of an edge of the first tree are enough for its row.
ghost use Rattle.std.specs.Prelude.{◌≡◌, ◌+◌, ◌-◌, ◌≤◌, ◌<◌};
ghost use Rattle.sums.specs.Sum.{sum};
ghost use Rattle.tree_check.specs.Table.{tips as table_tips, nodes as table_nodes};
ghost use Rattle.counting.specs.theorems.KeptTripletSums.{edge_over, alike_over, apart_over};
ghost use Rattle.kept_triplets.specs.lemmas.Rows.{FourSums, RowSums, Prepared, kept_alike_at, kept_apart_at, kept_alike_listed, kept_apart_listed};
ghost use Rattle.kept_triplets.specs.lemmas.AllRows.{RowsListed};

use super::places::{fill_span, weigh};
use super::terms::{alike_term, apart_term, cell};
use table_words::{Cell, NODES, TIPS};

#[derive(Clone, Copy)]
pub(crate) struct PairTerms {
    pub alike: u64,
    pub apart: u64,
}

// Node j of the second tree and its parent p, from the totals of an edge of the first tree. A total has the labels beyond the
// edge in its lower part, and those that leave there, beyond the edge above alone, from 65536 on: both parts of a difference
// are got by one subtraction.
fn pair_at(
    sums: &[u64; TIPS],
    begin: &[Cell; NODES],
    end: &[Cell; NODES],
    j: usize,
    p: usize,
) -> PairTerms
    requires { FourSums sums.now begin.now end.now j p }
    ensures { (result.alike ≡ kept_alike_at sums.now begin.now end.now j p)
        × (result.apart ≡ kept_apart_at sums.now begin.now end.now j p) }
{
    let own = cell(sums, begin[j], end[j]);
    let rest = cell(sums, begin[p], end[p]) - own;
    let i = own % 65536;
    PairTerms {
        alike: alike_term(i, rest / 65536),
        apart: apart_term(i, rest % 65536, own / 65536),
    }
}

// The listed nodes of the second tree.
fn row_terms(
    sums: &[u64; TIPS],
    begin: &[Cell; NODES],
    end: &[Cell; NODES],
    second: &[u16],
    columns: &[usize; NODES],
    count: usize,
) -> PairTerms
    requires { RowSums sums.now begin.now end.now second.now columns.now count }
    ensures { (result.alike ≡ sum count (kept_alike_listed sums.now begin.now end.now
        second.now columns.now))
        × (result.apart ≡ sum count (kept_apart_listed sums.now begin.now end.now
        second.now columns.now)) }
{
    let mut alike = 0u64;
    let mut apart = 0u64;
    for &j in &columns[..count] {
        let terms = pair_at(sums, begin, end, j, usize::from(second[2 + j]));
        alike += terms.alike;
        apart += terms.apart;
    }
    PairTerms { alike, apart }
}

// The row of edge v of the first tree.
fn row_at(
    first: &[u16],
    second: &[u16],
    marks: &[u8],
    n: usize,
    v: usize,
    first_begin: &[Cell; NODES],
    first_end: &[Cell; NODES],
    second_begin: &[Cell; NODES],
    second_end: &[Cell; NODES],
    at: &[Cell; TIPS],
    columns: &[usize; NODES],
    count: usize,
) -> PairTerms
    requires { Prepared first.now second.now marks.now n first_begin.now first_end.now second_begin.now
        second_end.now at.now columns.now count × (2 ≤ v) × (v < table_nodes first.now) }
    ensures { (result.alike ≡ sum (table_nodes second.now - 2) (λ j. alike_over marks.now
        (table_tips first.now) first.now second.now v (j + 2)))
        × (result.apart ≡ sum (table_nodes second.now - 2) (λ j. apart_over marks.now
        (table_tips first.now) first.now second.now v (j + 2))) }
{
    let p = usize::from(first[2 + v]);
    let mut weights = [0u64; TIPS];
    fill_span(&mut weights, first_begin[p], first_end[p], 65536);
    fill_span(&mut weights, first_begin[v], first_end[v], 1);
    let mut sums = [0u64; TIPS];
    weigh(at, n - 1, &weights, &mut sums);
    row_terms(&sums, second_begin, second_end, second, columns, count)
}

// The rows of the listed edges of the first tree.
pub(crate) fn all_rows(
    first: &[u16],
    second: &[u16],
    marks: &[u8],
    n: usize,
    first_begin: &[Cell; NODES],
    first_end: &[Cell; NODES],
    second_begin: &[Cell; NODES],
    second_end: &[Cell; NODES],
    at: &[Cell; TIPS],
    rows: &[usize; NODES],
    row_count: usize,
    columns: &[usize; NODES],
    column_count: usize,
) -> PairTerms
    requires { Prepared first.now second.now marks.now n first_begin.now first_end.now second_begin.now
        second_end.now at.now columns.now column_count
        × RowsListed first.now second.now marks.now rows.now row_count }
    ensures { (result.alike ≡ sum (table_nodes first.now - 2) (λ i. sum (table_nodes second.now - 2)
        (λ j. alike_over marks.now (table_tips first.now) first.now second.now
        (i + 2) (j + 2))))
        × (result.apart ≡ sum (table_nodes first.now - 2) (λ i. sum (table_nodes second.now - 2)
        (λ j. apart_over marks.now (table_tips first.now) first.now second.now
        (i + 2) (j + 2)))) }
{
    let mut alike = 0u64;
    let mut apart = 0u64;
    for &v in &rows[..row_count] {
        let row = row_at(
            first,
            second,
            marks,
            n,
            v,
            first_begin,
            first_end,
            second_begin,
            second_end,
            at,
            columns,
            column_count,
        );
        alike += row.alike;
        apart += row.apart;
    }
    PairTerms { alike, apart }
}
