// Rows of cells added up the first tree: a row for each node but node 0.
ghost use Rattle.std.specs.Prelude.{◌≡◌, ◌≤◌, length};
ghost use Rattle.table_words.specs.Sizes.{node_room};
ghost use Rattle.tree_pairs.specs.lemmas.Listed.{ListedNodes, row_start};
ghost use Rattle.tree_pairs.specs.lemmas.Rows.{RowsFit, RowAdded};
ghost use Rattle.tree_pairs.specs.lemmas.RowsUp.{Room, RowsAdded};

use table_words::{Cell, NODES};

// The row that begins at `from` is added to the row that begins at `to`.
fn add_row(work: &mut [Cell], to: usize, from: usize, width: usize)
    requires { RowsFit work.old to from width }
    ensures { RowAdded work.old work.new to from width }
{
    for j in 0..width {
        work[to + j] += work[from + j];
    }
}

// Where the row of each of `count` nodes begins. Starts that are read from a list, and not computed from the loop's own
// number, let the compiler add rows many cells at a time.
fn row_starts(count: usize, width: usize, starts: &mut [usize; NODES])
    requires { (count ≤ node_room) × (width ≤ node_room) × (length starts.old ≡ node_room) }
    ensures { ListedNodes (row_start width) count starts.new }
{
    for v in 1..count {
        starts[v] = (v - 1) * width;
    }
}

// Each row is added to its parent's, from the highest node down. Node 0 has no row: node 1 is added to none.
pub(crate) fn add_rows(parents: &[u16], work: &mut [Cell], width: usize)
    requires { Room parents.now work.old width }
    ensures { RowsAdded parents.now work.old work.new width }
{
    let mut starts = [0usize; NODES];
    row_starts(parents.len(), width, &mut starts);
    for i in (2..parents.len()).rev() {
        let p = usize::from(parents[i]);
        add_row(work, starts[p], starts[i], width);
    }
}
