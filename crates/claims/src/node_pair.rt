// What two nodes add to the claim sums, from the crossings of edges.
ghost use Rattle.std.specs.Prelude.{◌≡◌, ◌+◌, ◌≤◌, length};
ghost use Rattle.table_words.specs.Sizes.{tips_most};
ghost use Rattle.node_pairs.specs.theorems.Cells.{pair_s2, pair_s3};
ghost use Rattle.tree_check.specs.Table.{word};
ghost use Rattle.claims.specs.lemmas.Block.{Scratch};
ghost use Rattle.claims.specs.lemmas.CodeCells.{code_cell};
ghost use Rattle.claims.specs.lemmas.NinePair.{ThreeRoom, OwnRow, ChildRow};
ghost use Rattle.claims.specs.lemmas.NodeBlock.{NodeEdges};
ghost use Rattle.claims.specs.lemmas.PairLoops.{PairRoom};

use super::blocks::block_terms;
use super::code_cells::{both, first_only, neither, second_only};
use super::fills::fill_block;
use super::nine::nine_terms;
use super::terms::PairTerms;
use table_words::Cell;

// Three cells of a row.
#[derive(Clone, Copy)]
struct ThreeCells {
    a: u64,
    b: u64,
    c: u64,
}

// The row of a node's own edge. It and a child's differ in all that they call, and one function that took these calls as
// closures would have to be given a child's twice below: so there are two.
fn own_cells(work: &[Cell], base: usize, n: u16, c0: usize, c1: usize, c2: usize) -> ThreeCells
    requires three_room { ThreeRoom work.now base c0 c1 c2 × (n ≤ tips_most) }
    requires fits { word work.now base + word work.now c0 ≤ n + word work.now (base + c0) }
    ensures { OwnRow work.now n base c0 c1 c2 result.a result.b result.c }
{
    ThreeCells {
        a: u64::from(neither(work, base, c0, n)),
        b: u64::from(second_only(work, base, c1)),
        c: u64::from(second_only(work, base, c2)),
    }
}

// The row of a child's edge.
fn child_cells(work: &[Cell], base: usize, c0: usize, c1: usize, c2: usize) -> ThreeCells
    requires { ThreeRoom work.now base c0 c1 c2 }
    ensures { ChildRow work.now base c0 c1 c2 result.a result.b result.c }
{
    ThreeCells {
        a: u64::from(first_only(work, base, c0)),
        b: u64::from(both(work, base, c1)),
        c: u64::from(both(work, base, c2)),
    }
}

// Two nodes with three codes into each.
fn nine_cells(work: &[Cell], width: usize, n: u16, rows: &[usize], columns: &[usize]) -> PairTerms
    requires node_edges { NodeEdges work.now width n rows.now columns.now }
    requires three { (length rows.now ≡ 3) × (length columns.now ≡ 3) }
    ensures { (result.s2 ≡ pair_s2 3 3
        (code_cell work.now width n (word rows.now) (word columns.now)))
        × (result.s3 ≡ pair_s3 3 3
        (code_cell work.now width n (word rows.now) (word columns.now))) }
{
    let c0 = columns[0];
    let c1 = columns[1];
    let c2 = columns[2];
    let x = own_cells(work, rows[0] * width, n, c0, c1, c2);
    let y = child_cells(work, rows[1] * width, c0, c1, c2);
    let z = child_cells(work, rows[2] * width, c0, c1, c2);
    nine_terms(x.a, x.b, x.c, y.a, y.b, y.c, z.a, z.b, z.c)
}

// Two nodes: nine cells at once, or a block. Fewer than three codes make no claim. The slices are lent for the block
// and for sums along it.
pub(crate) fn node_pair(
    work: &[Cell],
    width: usize,
    n: u16,
    rows: &[usize],
    columns: &[usize],
    block: &mut [u16],
    sums: &mut [u64],
    totals: &mut [u64],
    down: &mut [u64],
    along: &mut [u64],
    dots: &mut [u64],
) -> PairTerms
    requires pair_room { PairRoom work.now width n rows.now columns.now (length block.old) }
    requires scratch { Scratch sums.old totals.old down.old along.old dots.old }
    ensures { (result.s2 ≡ pair_s2 (length rows.now) (length columns.now)
        (code_cell work.now width n (word rows.now) (word columns.now)))
        × (result.s3 ≡ pair_s3 (length rows.now) (length columns.now)
        (code_cell work.now width n (word rows.now) (word columns.now))) }
{
    if columns.len() < 3 {
        return PairTerms { s2: 0, s3: 0 };
    }
    if rows.len() == 3 {
        if columns.len() == 3 {
            return nine_cells(work, width, n, rows, columns);
        }
    }
    fill_block(work, width, n, rows, columns, block);
    block_terms(
        block,
        rows.len(),
        columns.len(),
        sums,
        totals,
        down,
        along,
        dots,
    )
}
