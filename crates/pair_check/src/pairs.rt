// The pair check: whether two tables are tree tables on the same tips, whether the marks are marks of their labels, and whether
// the lent work has cells enough.
ghost use Rattle.std.specs.Prelude.{◌≡◌, ◌*◌, ◌<◌};
ghost use Rattle.tree_check.specs.Check.{checked};
ghost use Rattle.tree_check.specs.Refusals.{refusal};
ghost use Rattle.tree_check.specs.Table.{tips as table_tips};
ghost use Rattle.marks.specs.Marks.{kept_of};
ghost use Rattle.pair_check.specs.PairOrder.{tables_order, cells_order, pair_order};
ghost use Rattle.pair_check.specs.CheckedPair.{checked_pair, checked_cells, checked_work, PairTold};
ghost use Rattle.pair_check.specs.lemmas.PairOutcomes.{told_second, measured_pair};

use marks::check_marks;
use tree_check::{Refusal, Tree, check};

// A pair: its tips, how many of them are counted, the first tree's edges and the second's.
#[derive(Clone, Copy)]
pub struct Pair {
    pub tips: u16,
    pub counted: u16,
    pub rows: usize,
    pub columns: usize,
}

// The second table, whose refusals are told apart from the first's.
fn check_second(table: &[u16]) -> Result<Tree, Refusal>
    ensures { result ≡ told_second (checked table.now) }
{
    check(table).map_err(Refusal::Second)
}

// Two tables alone: a refused first tree ends the comparison before the second counts. All labels are counted.
pub fn check_pair(first: &[u16], second: &[u16]) -> Result<Pair, Refusal>
    ensures { (result ≡ checked_pair first.now second.now)
        × PairTold (refusal (tables_order first.now second.now)) first.now second.now
        (table_tips first.now) result }
{
    let one = check(first)?;
    let other = check_second(second)?;
    if other.tips != one.tips {
        return Err(Refusal::TipsDiffer);
    }
    Ok(Pair {
        tips: one.tips,
        counted: one.tips,
        rows: usize::from(one.nodes) - 1,
        columns: usize::from(other.nodes) - 1,
    })
}

// A pair with a cell for each pair of edges, or 9.
fn measured(pair: Pair, cells: usize) -> Result<Pair, Refusal>
    requires { pair.rows * pair.columns < 18446744073709551616 }
    ensures { result ≡ measured_pair pair cells }
{
    if cells < pair.rows * pair.columns {
        return Err(Refusal::Cells);
    }
    Ok(pair)
}

// Two tables and the number of work cells: every pair call with work and without marks begins with it.
pub fn check_cells(first: &[u16], second: &[u16], cells: usize) -> Result<Pair, Refusal>
    ensures { (result ≡ checked_cells first.now second.now cells)
        × PairTold (refusal (cells_order first.now second.now cells)) first.now second.now
        (table_tips first.now) result }
{
    let pair = check_pair(first, second)?;
    measured(pair, cells)
}

// Two tables, the marks of their labels and the number of work cells: every pair call with marks begins with it. The kept
// labels are counted.
pub fn check_work(
    first: &[u16],
    second: &[u16],
    marks: &[u8],
    cells: usize,
) -> Result<Pair, Refusal>
    ensures { (result ≡ checked_work first.now second.now marks.now cells)
        × PairTold (refusal (pair_order first.now second.now marks.now cells))
        first.now second.now (kept_of marks.now (table_tips first.now)) result }
{
    let pair = check_pair(first, second)?;
    let kept = check_marks(marks, pair.tips)?;
    let counted = Pair {
        counted: kept,
        ..pair
    };
    measured(counted, cells)
}
