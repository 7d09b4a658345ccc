// What two nodes add to the claim sums, from the block of their cells.
ghost use Rattle.std.specs.Prelude.{◌≡◌, ◌≤◌, length};
ghost use Rattle.node_pairs.specs.theorems.Cells.{pair_s2, pair_s3};
ghost use Rattle.claims.specs.lemmas.Block.{Block, Scratch, block_cell};
ghost use Rattle.claims.specs.lemmas.BlockCells.{Summed};
ghost use Rattle.claims.specs.lemmas.BlockTerms.{Rectangles};

use super::cells::all_terms;
use super::dots::{DotSums, all_dots};
use super::lines::{fill_lines, line_rest, line_sum};
use super::terms::PairTerms;
use super::three_lines::three_lines;

// The sums of the rows and of the columns, and of each cell times the rest of its row or of its column.
fn block_sums(
    cells: &[u16],
    rows: usize,
    columns: usize,
    sums: &mut [u64],
    totals: &mut [u64],
    down: &mut [u64],
    along: &mut [u64],
)
    requires block { Block cells.now rows columns }
    requires room { (rows ≤ length sums.old) × (columns ≤ length totals.old)
        × (columns ≤ length down.old) × (rows ≤ length along.old) }
    ensures { Summed cells.now sums.new totals.new down.new
        along.new rows columns }
{
    fill_lines(columns, rows, |at| line_sum(cells, at, 1, columns), sums);
    fill_lines(1, columns, |at| line_sum(cells, at, columns, rows), totals);
    fill_lines(
        1,
        columns,
        |at| line_rest(cells, at, columns, rows, sums),
        down,
    );
    fill_lines(
        columns,
        rows,
        |at| line_rest(cells, at, 1, columns, totals),
        along,
    );
}

// The dot products of the rows or of the columns, whichever are fewer.
fn rectangle_sums(cells: &[u16], rows: usize, columns: usize, dots: &mut [u64]) -> DotSums
    requires { Block cells.now rows columns
        × (rows ≤ length dots.old) × (columns ≤ length dots.old) }
    ensures { Rectangles rows columns (block_cell cells.now columns) result.dots result.terms }
{
    if rows <= columns {
        return all_dots(cells, columns, rows, 1, columns, dots);
    }
    all_dots(cells, 1, columns, columns, rows, dots)
}

// What two nodes add, by rows, columns and cells.
fn large_block(
    cells: &[u16],
    rows: usize,
    columns: usize,
    sums: &mut [u64],
    totals: &mut [u64],
    down: &mut [u64],
    along: &mut [u64],
    dots: &mut [u64],
) -> PairTerms
    requires block { Block cells.now rows columns }
    requires scratch { Scratch sums.old totals.old down.old along.old dots.old }
    ensures { (result.s2 ≡ pair_s2 rows columns (block_cell cells.now columns))
        × (result.s3 ≡ pair_s3 rows columns (block_cell cells.now columns)) }
{
    let rectangles = rectangle_sums(cells, rows, columns, dots);
    block_sums(cells, rows, columns, sums, totals, down, along);
    let all = all_terms(cells, rows, columns, sums, totals, down, along);
    PairTerms {
        s2: all.pairs,
        s3: all.plus + 2 * rectangles.dots - all.minus - 2 * rectangles.terms,
    }
}

// What two nodes add, from the block of their cells: `rows` rows of `columns` cells each. Three rows or three columns
// are taken as lines. The other slices are lent for sums along the rows and columns of a larger block.
pub(crate) fn block_terms(
    cells: &[u16],
    rows: usize,
    columns: usize,
    sums: &mut [u64],
    totals: &mut [u64],
    down: &mut [u64],
    along: &mut [u64],
    dots: &mut [u64],
) -> PairTerms
    requires block { Block cells.now rows columns }
    requires scratch { Scratch sums.old totals.old down.old along.old dots.old }
    ensures { (result.s2 ≡ pair_s2 rows columns (block_cell cells.now columns))
        × (result.s3 ≡ pair_s3 rows columns (block_cell cells.now columns)) }
{
    if rows == 3 {
        return three_lines(cells, columns, 1, columns);
    }
    if columns == 3 {
        return three_lines(cells, 1, 3, rows);
    }
    large_block(cells, rows, columns, sums, totals, down, along, dots)
}
