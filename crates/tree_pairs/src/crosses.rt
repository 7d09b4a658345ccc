// The crossing counts of two trees.
ghost use Rattle.std.specs.Prelude.{◌≡◌, length};
ghost use Rattle.tree_check.specs.lemmas.TableParts.{table_of};
ghost use Rattle.tree_check.specs.Refusals.{refusal};
ghost use Rattle.tree_check.specs.Table.{tips as table_tips};
ghost use Rattle.marks.specs.Marks.{kept_of};
ghost use Rattle.pair_check.specs.PairOrder.{PairWithCells, cells_order, pair_order};
ghost use Rattle.pair_check.specs.CheckedPair.{checked_cells, checked_work, PairTold};
ghost use Rattle.tree_pairs.specs.Crossings.{crossed_kept, crossed_all, after_crossings, after_all};
ghost use Rattle.tree_pairs.specs.lemmas.Filling.{PairArrays};

use super::rows::add_rows;
use super::rows_of_tips::tip_rows;
use pair_check::{Pair, check_cells, check_work};
use table_words::{Cell, NODES, TIPS};
use tree_check::{Refusal, refusal_of};
use walks::spans;

// The rows are written from the spans of the second tree's nodes, then each is added to its parent's.
fn fill_arrays(
    first_parents: &[u16],
    first_labels: &[u16],
    second: &[u16],
    marks: &[u8],
    n: usize,
    work: &mut [Cell],
)
    requires { PairArrays n first_parents.now first_labels.now second.now work.old }
    ensures { work.new
        ≡ crossed_kept (table_of n first_parents.now first_labels.now) second.now
        marks.now work.old }
{
    let width = usize::from(second[1]) - 1;
    let mut labelled = [0u16; TIPS];
    let mut begin = [0; NODES];
    let mut end = [0; NODES];
    spans(second, &mut labelled, &mut begin, &mut end);
    tip_rows(first_labels, marks, n, width, &labelled, &begin, &end, work);
    add_rows(first_parents, work, width);
}

// The crossings of two tables that were checked, into their cells: of the labels that are kept.
pub(crate) fn fill(first: &[u16], second: &[u16], marks: &[u8], work: &mut [Cell])
    requires { PairWithCells first.now second.now (length work.old) }
    ensures { work.new
        ≡ crossed_kept first.now second.now marks.now work.old }
{
    let n = usize::from(first[0]);
    let m = usize::from(first[1]);
    fill_arrays(&first[2..2 + m], &first[2 + m..], second, marks, n, work);
}

// The crossings of two tables that were checked, into their cells: of all labels.
fn fill_all(first: &[u16], second: &[u16], work: &mut [Cell])
    requires { PairWithCells first.now second.now (length work.old) }
    ensures { work.new ≡ crossed_all first.now second.now work.old }
{
    let marks = [1u8; TIPS];
    fill(first, second, &marks, work);
}

// The crossings of kept labels in the lent cells, and the pair that they are of: a pair call with marks goes on from here.
pub fn cross_pair(
    first: &[u16],
    second: &[u16],
    marks: &[u8],
    work: &mut [Cell],
) -> Result<Pair, Refusal>
    ensures { (result ≡ checked_work first.now second.now marks.now (length work.old))
        × PairTold (refusal (pair_order first.now second.now marks.now (length work.old)))
        first.now second.now (kept_of marks.now (table_tips first.now)) result
        × (work.new
        ≡ after_crossings first.now second.now marks.now work.old) }
{
    let pair = check_work(first, second, marks, work.len())?;
    fill(first, second, marks, work);
    Ok(pair)
}

// The crossings of all labels in the lent cells, and the pair that they are of: the triplet table goes on from here.
// Apart from cross_pair: it has marks of its own, and its clauses cite other definitions.
pub fn cross_all(first: &[u16], second: &[u16], work: &mut [Cell]) -> Result<Pair, Refusal>
    ensures { (result ≡ checked_cells first.now second.now (length work.old))
        × PairTold (refusal (cells_order first.now second.now (length work.old)))
        first.now second.now (table_tips first.now) result
        × (work.new ≡ after_all first.now second.now work.old) }
{
    let pair = check_cells(first, second, work.len())?;
    fill_all(first, second, work);
    Ok(pair)
}

// How many kept labels lie beyond both edge i of the first tree and edge j of the second, in cell
// (i - 1)(m' - 1) + (j - 1). The two trees may be one slice.
// The answer is the number itself, as docs/LIBRARY.md promises.
pub fn crossings(first: &[u16], second: &[u16], marks: &[u8], work: &mut [Cell]) -> u16
    ensures { (result ≡ refusal (pair_order first.now second.now marks.now (length work.old)))
        × (work.new
        ≡ after_crossings first.now second.now marks.now work.old) }
{
    refusal_of(cross_pair(first, second, marks, work))
}
