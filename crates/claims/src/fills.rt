// The block of the cells of two nodes, filled row by row. `columns` are the edges of the second node, its own first.
ghost use Rattle.std.specs.Prelude.{◌≡◌, ℕ, ◌+◌, ◌*◌, ◌<◌, ◌≤◌, length};
ghost use Rattle.tree_check.specs.Table.{word};
ghost use Rattle.claims.specs.lemmas.NodeBlock.{BlockWritten, NodeEdges, RowsFilled};

use super::code_cells::{both, first_only, neither, second_only};
use table_words::Cell;

// A row of cells, from `at` on: what `first` gives for the first edge, and what `later` gives for each of the others.
pub(crate) fn fill_row<F: Fn(usize) -> u16, G: Fn(usize) -> u16>(
    edges: &[usize],
    at: usize,
    first: F,
    later: G,
    cells: &mut [u16],
)
    requires room { (1 ≤ length edges.now) × (at + length edges.now ≤ length cells.old) }
    requires first_callable { F.pre first (word edges.now 0) }
    requires later_callable { (j : ℕ) → 1 ≤ j → j < length edges.now → G.pre later (word edges.now j) }
    ensures { (f : ℕ → ℕ) → ((v : ℕ) → F.post first (word edges.now 0) v → v ≡ f 0)
        → ((j v : ℕ) → 1 ≤ j → j < length edges.now → G.post later (word edges.now j) v → v ≡ f j)
        → BlockWritten cells.old cells.new at (length edges.now) f }
{
    cells[at] = first(edges[0]);
    for j in 1..edges.len() {
        cells[at + j] = later(edges[j]);
    }
}

// The block of two nodes, given by the edges of the codes into them.
pub(crate) fn fill_block(
    work: &[Cell],
    width: usize,
    n: u16,
    rows: &[usize],
    columns: &[usize],
    block: &mut [u16],
)
    requires node_edges { NodeEdges work.now width n rows.now columns.now }
    requires block_room { length rows.now * length columns.now ≤ length block.old }
    ensures { RowsFilled work.now width n rows.now columns.now
        block.new (length rows.now) }
{
    let base = rows[0] * width;
    fill_row(
        columns,
        0,
        |c| neither(work, base, c, n),
        |c| second_only(work, base, c),
        block,
    );
    for i in 1..rows.len() {
        let base = rows[i] * width;
        fill_row(
            columns,
            i * columns.len(),
            |c| first_only(work, base, c),
            |c| both(work, base, c),
            block,
        );
    }
}
