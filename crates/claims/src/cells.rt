// What the cells of a block give to the claim sums, row by row. Empty cells give nothing and are passed over.
ghost use Rattle.std.specs.Prelude.{◌<◌};
ghost use Rattle.claims.specs.lemmas.Block.{block_cell};
ghost use Rattle.claims.specs.lemmas.BlockCells.{Summed, Overall};
ghost use Rattle.claims.specs.lemmas.CellSums.{RowTerms, AllTerms};

use super::cell_terms::{CellSums, cell_terms};
use super::lines::{line_squares, total, total_squares};

// What row i gives.
fn row_terms(
    cells: &[u16],
    rows: usize,
    columns: usize,
    i: usize,
    whole: u64,
    squares: u64,
    base: u64,
    sums: &[u64],
    totals: &[u64],
    down: &[u64],
    along: &[u64],
) -> CellSums
    requires summed { Summed cells.now sums.now totals.now down.now along.now rows columns × (i < rows) }
    requires overall { Overall cells.now rows columns whole squares base }
    ensures { RowTerms rows columns (block_cell cells.now columns) i columns
        result.pairs result.plus result.minus }
{
    let row = sums[i];
    let beside = along[i];
    let mut pairs: u64 = 0;
    let mut plus: u64 = 0;
    let mut minus: u64 = 0;
    let mut k = i * columns;
    for j in 0..columns {
        let t = u64::from(cells[k]);
        if t != 0 {
            let cell = cell_terms(t, row, totals[j], down[j], beside, whole, squares, base);
            pairs += cell.pairs;
            plus += cell.plus;
            minus += cell.minus;
        }
        k += 1;
    }
    CellSums {
        pairs: pairs,
        plus: plus,
        minus: minus,
    }
}

// What all rows give.
pub(crate) fn all_terms(
    cells: &[u16],
    rows: usize,
    columns: usize,
    sums: &[u64],
    totals: &[u64],
    down: &[u64],
    along: &[u64],
) -> CellSums
    requires { Summed cells.now sums.now totals.now down.now along.now rows columns }
    ensures { AllTerms rows columns (block_cell cells.now columns) rows
        result.pairs result.plus result.minus }
{
    let whole = total(sums, rows);
    let squares = line_squares(cells, 0, 1, rows * columns);
    let base = total_squares(sums, rows) + total_squares(totals, columns);
    let mut pairs: u64 = 0;
    let mut plus: u64 = 0;
    let mut minus: u64 = 0;
    for i in 0..rows {
        let row = row_terms(
            cells, rows, columns, i, whole, squares, base, sums, totals, down, along,
        );
        pairs += row.pairs;
        plus += row.plus;
        minus += row.minus;
    }
    CellSums {
        pairs: pairs,
        plus: plus,
        minus: minus,
    }
}
