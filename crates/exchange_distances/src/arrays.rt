// What every walk of a tree reads: the node of each label, how many labels lie at or below each node, and the squares of these
// numbers.
ghost use Rattle.std.specs.Prelude.{◌≡◌, length};
ghost use Rattle.table_words.specs.Sizes.{node_room};
ghost use Rattle.shapes.specs.theorems.Shape.{Shape};
ghost use Rattle.tree_check.specs.lemmas.Sized.{Sized};
ghost use Rattle.exchange_distances.specs.lemmas.SpanSizes.{SpansFit, SpanSizes};
ghost use Rattle.exchange_distances.specs.lemmas.WalkArrays.{ShapeSizes, Squared};
ghost use Rattle.exchange_distances.specs.lemmas.SquareLoops.{Sizing, RestSquared};
ghost use Rattle.exchange_distances.specs.lemmas.TableArrays.{Arrays};

use table_words::{Cell, NODES, TIPS, cell_index};
use walks::spans;

// How many labels lie at or below each node, from where its span begins and ends; all n do at node 0.
fn sizes(begin: &[Cell; NODES], end: &[Cell; NODES], n: usize, m: usize, size: &mut [usize; NODES])
    requires { SpansFit m begin.now end.now size.old }
    ensures { SpanSizes n m begin.now end.now size.new }
{
    size[0] = n;
    for v in 1..m {
        size[v] = cell_index(end[v]) - cell_index(begin[v]);
    }
}

// The square of the labels that are not below each node.
fn square_rest(parents: &[u16], n: usize, size: &[usize; NODES], square: &mut [usize; NODES])
    requires { Sizing n parents.now size.now × (length square.old ≡ node_room) }
    ensures { RestSquared n size.now (length parents.now) square.new }
{
    for v in 0..parents.len() {
        let rest = n - size[v];
        square[v] = rest * rest;
    }
}

// The squares at each node: the labels behind each directed edge into it, squared and added.
fn squares(parents: &[u16], n: usize, size: &[usize; NODES], square: &mut [usize; NODES])
    requires { Sizing n parents.now size.now × (length square.old ≡ node_room) }
    ensures { (s : Shape n) → ShapeSizes n parents.now size.now s
        → Squared n parents.now size.now square.new s }
{
    square_rest(parents, n, size, square);
    for i in 1..parents.len() {
        let u = usize::from(parents[i]);
        let b = size[i];
        square[u] += b * b;
    }
}

// All three of a table that was checked, with n labels and m nodes.
pub(crate) fn arrays_of(
    table: &[u16],
    n: usize,
    m: usize,
    labelled: &mut [u16; TIPS],
    size: &mut [usize; NODES],
    square: &mut [usize; NODES],
)
    requires { Sized table.now n m × (length labelled.old ≡ 256) × (length size.old ≡ node_room)
        × (length square.old ≡ node_room) }
    ensures { Arrays table.now labelled.new size.new square.new }
{
    let mut begin = [0; NODES];
    let mut end = [0; NODES];
    spans(table, labelled, &mut begin, &mut end);
    sizes(&begin, &end, n, m, size);
    squares(&table[2..2 + m], n, size, square);
}
