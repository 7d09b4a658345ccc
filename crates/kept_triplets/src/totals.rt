// The sums over edges and over pairs of edges of two tables that were checked.
ghost use Rattle.std.specs.Prelude.{◌≡◌};
ghost use Rattle.tree_check.specs.lemmas.Sized.{Sized};
ghost use Rattle.kept_triplets.specs.lemmas.Prepare.{Unprepared, KeptSumsAre};

use super::edges::{edge_terms, list_edges};
use super::places::{fill_places, prefix};
use super::rows::all_rows;
use table_words::{Cell, NODES, TIPS};
use walks::spans;

// What edges of the first tree add, edges of the second, and pairs of edges; and how many labels but 0 are kept.
#[derive(Clone, Copy)]
pub(crate) struct KeptSums {
    pub first: u64,
    pub second: u64,
    pub alike: u64,
    pub apart: u64,
    pub others: u16,
}

// From the spans of both trees; `at` has the places of the first walk in the order of the second, `back` those of the second
// in the order of the first.
fn sums_of(
    first: &[u16],
    second: &[u16],
    marks: &[u8],
    n: usize,
    m: usize,
    k: usize,
    first_begin: &[Cell; NODES],
    first_end: &[Cell; NODES],
    second_begin: &[Cell; NODES],
    second_end: &[Cell; NODES],
    at: &[Cell; TIPS],
    back: &[Cell; TIPS],
) -> KeptSums
    requires { Unprepared first.now second.now marks.now n m k first_begin.now first_end.now
        second_begin.now second_end.now at.now back.now }
    ensures { KeptSumsAre first.now second.now marks.now
        result.first result.second result.alike result.apart result.others }
{
    let mut first_all = [0u64; TIPS];
    prefix(back, n - 1, 0, 255, &mut first_all);
    let mut rows = [0usize; NODES];
    let row_count = list_edges(&first_all, first_begin, first_end, first, m, &mut rows);
    let mut second_all = [0u64; TIPS];
    prefix(at, n - 1, 0, 255, &mut second_all);
    let mut columns = [0usize; NODES];
    let column_count = list_edges(
        &second_all,
        second_begin,
        second_end,
        second,
        k,
        &mut columns,
    );
    let pairs = all_rows(
        first,
        second,
        marks,
        n,
        first_begin,
        first_end,
        second_begin,
        second_end,
        at,
        &rows,
        row_count,
        &columns,
        column_count,
    );
    KeptSums {
        first: edge_terms(&first_all, first_begin, first_end, first, &rows, row_count),
        second: edge_terms(
            &second_all,
            second_begin,
            second_end,
            second,
            &columns,
            column_count,
        ),
        alike: pairs.alike,
        apart: pairs.apart,
        others: second_all[n - 1] as u16,
    }
}

// The sums of two tables of n labels, with m and k nodes.
pub(crate) fn kept_sums(
    first: &[u16],
    second: &[u16],
    marks: &[u8],
    n: usize,
    m: usize,
    k: usize,
) -> KeptSums
    requires { Sized first.now n m × Sized second.now n k }
    ensures { KeptSumsAre first.now second.now marks.now
        result.first result.second result.alike result.apart result.others }
{
    let mut first_nodes = [0u16; TIPS];
    let mut first_begin = [0; NODES];
    let mut first_end = [0; NODES];
    spans(first, &mut first_nodes, &mut first_begin, &mut first_end);
    let mut second_nodes = [0u16; TIPS];
    let mut second_begin = [0; NODES];
    let mut second_end = [0; NODES];
    spans(
        second,
        &mut second_nodes,
        &mut second_begin,
        &mut second_end,
    );
    let mut at = [0; TIPS];
    fill_places(
        marks,
        n,
        &first_nodes,
        &second_nodes,
        &first_begin,
        &second_begin,
        &mut at,
    );
    let mut back = [0; TIPS];
    fill_places(
        marks,
        n,
        &second_nodes,
        &first_nodes,
        &second_begin,
        &first_begin,
        &mut back,
    );
    sums_of(
        first,
        second,
        marks,
        n,
        m,
        k,
        &first_begin,
        &first_end,
        &second_begin,
        &second_end,
        &at,
        &back,
    )
}
