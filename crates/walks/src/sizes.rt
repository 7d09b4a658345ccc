// How many labels lie beyond each edge, and where they stand in the walk, for a table that was checked:
// sizes from the highest node down, positions from node 0 up. One pass each.
ghost use Rattle.std.specs.Prelude.{◌≡◌, ◌≤◌, length, nat_lt};
ghost use Rattle.table_words.specs.Sizes.{node_room};
ghost use Rattle.sums.specs.Bits.{bit};
ghost use Rattle.tree_check.specs.lemmas.TableParts.{table_of};
ghost use Rattle.walks.specs.AddUp.{added_up};
ghost use Rattle.walks.specs.lemmas.TreeArrays.{TreeArrays};
ghost use Rattle.walks.specs.lemmas.Positions.{TipsMarked, Sizes, Ends};

use std::num::wrapping_add_usize;
use table_words::NODES;

// Each node's cell is added to its parent's, from the highest node down, modulo 2^64. A parent word that is no smaller
// than the node plays no part; for more than NODES nodes the cells stay.
pub fn add_up(parents: &[u16], cells: &mut [usize; NODES])
    ensures { cells.new ≡ added_up parents.now cells.old }
{
    if NODES < parents.len() {
        return;
    }
    for i in (0..parents.len()).rev() {
        let p = usize::from(parents[i]);
        if p < i {
            cells[p] = wrapping_add_usize(cells[p], cells[i]);
        }
    }
}

// 1 for a tip's label, 0 for 65535.
fn own_label(label: usize, n: usize) -> usize
    ensures { result ≡ bit (nat_lt label n) }
{
    if label < n {
        return 1;
    }
    0
}

// 1 in the cell of each tip, 0 in that of each inner node.
fn mark_tips(labels: &[u16], n: usize, cells: &mut [usize; NODES])
    requires { (length labels.now ≤ node_room) × (length cells.old ≡ node_room) }
    ensures { TipsMarked n labels.now (length labels.now) cells.new }
{
    for (v, label) in labels.iter().enumerate() {
        cells[v] = own_label(usize::from(*label), n);
    }
}

// How many labels lie beyond each node.
pub(crate) fn sizes(parents: &[u16], labels: &[u16], n: usize, cells: &mut [usize; NODES])
    requires { TreeArrays n parents.now labels.now × (length cells.old ≡ node_room) }
    ensures { Sizes (table_of n parents.now labels.now) cells.new }
{
    mark_tips(labels, n, cells);
    add_up(parents, cells);
}

// Where each node's labels end in the walk: a node begins where its parent has got to, and its parent goes on after it.
pub(crate) fn ends(
    parents: &[u16],
    labels: &[u16],
    n: usize,
    size: &[usize; NODES],
    reach: &mut [usize; NODES],
)
    requires { TreeArrays n parents.now labels.now × Sizes (table_of n parents.now labels.now) size.now
        × (length reach.old ≡ node_room) }
    ensures { Ends (table_of n parents.now labels.now) reach.new }
{
    reach[0] = 1;
    for c in 1..parents.len() {
        let p = usize::from(parents[c]);
        let at = reach[p];
        reach[c] = at + own_label(usize::from(labels[c]), n);
        reach[p] = at + size[c];
    }
}
