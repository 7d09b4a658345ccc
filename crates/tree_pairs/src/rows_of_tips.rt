// The rows of the first tree's nodes, each written once: a tip's from the spans of the second tree's nodes, the others empty.
ghost use Rattle.std.specs.Prelude.{◌≡◌, length};
ghost use Rattle.sums.specs.Bits.{bit};
ghost use Rattle.walks.specs.theorems.SpanLaws.{in_span};
ghost use Rattle.tree_pairs.specs.lemmas.TipRows.{RowRoom, RowFilled, in_spans, nothing, counted_label, TipRoom, TipRows};

use marks::is_kept;
use table_words::{Cell, NODES, TIPS};

// 1 where place `at` lies in the span from `begin` to before `end`, 0 elsewhere.
fn within(at: Cell, begin: Cell, end: Cell) -> Cell
    ensures { result ≡ bit (in_span at begin end) }
{
    if at < begin {
        return 0;
    }
    if at < end {
        return 1;
    }
    0
}

// The row that begins at `base`: 1 at the nodes in whose spans place `at` lies. No branch in the loop leaves it, so the
// compiler fills many cells at a time.
fn tip_row(
    work: &mut [Cell],
    base: usize,
    width: usize,
    at: Cell,
    begin: &[Cell; NODES],
    end: &[Cell; NODES],
)
    requires { RowRoom work.old base width }
    ensures { RowFilled (in_spans begin.now end.now at) base width work.old
        work.new }
{
    for j in 0..width {
        work[base + j] = within(at, begin[j + 1], end[j + 1]);
    }
}

// Whether x is one of n labels, and kept.
fn is_counted(marks: &[u8], n: usize, x: usize) -> bool
    ensures { result ≡ counted_label marks.now n x }
{
    if !is_kept(marks, x) {
        return false;
    }
    x < n
}

// The row that begins at `base` becomes empty.
fn empty_row(work: &mut [Cell], base: usize, width: usize)
    requires { RowRoom work.old base width }
    ensures { RowFilled nothing base width work.old work.new }
{
    work[base..base + width].fill(0);
}

// The row of each node of the first tree but node 0: of a tip whose label is kept, 1 at the nodes of the second tree at or above
// the tip with the same label; of any other node, nothing.
pub(crate) fn tip_rows(
    labels: &[u16],
    marks: &[u8],
    n: usize,
    width: usize,
    labelled: &[u16; TIPS],
    begin: &[Cell; NODES],
    end: &[Cell; NODES],
    work: &mut [Cell],
)
    requires { TipRoom labels.now n width labelled.now work.old }
    ensures { TipRows labels.now marks.now n width labelled.now begin.now
        end.now (length labels.now) work.old work.new }
{
    for v in 1..labels.len() {
        let x = usize::from(labels[v]);
        let base = (v - 1) * width;
        if is_counted(marks, n, x) {
            let node = usize::from(labelled[x]);
            tip_row(work, base, width, begin[node], begin, end);
        } else {
            empty_row(work, base, width);
        }
    }
}
