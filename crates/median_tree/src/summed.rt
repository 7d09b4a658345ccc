// The summed distance of each tree to all, each two trees counted once.
ghost use Rattle.std.specs.Prelude.{◌≡◌, ◌+◌, ◌≤◌, ◌<◌, length};
ghost use Rattle.tree_check.specs.Table.{word, tips};
ghost use Rattle.counting.specs.Labels.{all};
ghost use Rattle.counting.specs.Cases.{distance};
ghost use Rattle.pair_check.specs.PairOrder.{cells_needed, IsPair};
ghost use Rattle.tree_lists.specs.TreeLists.{trees_most, trees_of};
ghost use Rattle.median_tree.specs.Least.{first_least};
ghost use Rattle.median_tree.specs.Nearest.{distance_of, list_cells};
ghost use Rattle.median_tree.specs.lemmas.SameCells.{SameFrom};
ghost use Rattle.median_tree.specs.lemmas.Distances.{ListReady};
ghost use Rattle.median_tree.specs.lemmas.RowSums.{Sums};

use quartets::quartet_table;
use table_words::{Cell, TIPS};
use tree_lists::STARTS;

// The most trees of a list.
pub(crate) const TREES: usize = 16;

// The distance of two trees over all labels; the cells that they need are written.
fn between(first: &[u16], second: &[u16], n: usize, work: &mut [Cell]) -> u64
    requires { IsPair first.now second.now × (n ≡ tips first.now) × (cells_needed first.now second.now ≤ length work.old) }
    ensures { (result ≡ distance (all (tips first.now)) first.now second.now)
        × SameFrom (cells_needed first.now second.now) work.old work.new }
{
    let marks = [1u8; TIPS];
    let table = quartet_table(first, second, &marks[..n], work);
    table.distance
}

// The distance of trees i and j of the list.
fn pair_distance(
    list: &[u16],
    starts: &[usize; STARTS],
    i: usize,
    j: usize,
    n: usize,
    work: &mut [Cell],
) -> u64
    requires { ListReady list.now starts.now n (length work.old) × (i < trees_of list.now) × (j < trees_of list.now) }
    ensures { (result ≡ distance_of list.now i j)
        × SameFrom (list_cells list.now) work.old work.new }
{
    let s = starts[i];
    let e = starts[i + 1];
    let from = starts[j];
    let to = starts[j + 1];
    between(&list[s..e], &list[from..to], n, work)
}

// Tree i against each earlier one: every distance is added to both sums.
fn add_row(
    list: &[u16],
    starts: &[usize; STARTS],
    i: usize,
    n: usize,
    work: &mut [Cell],
    sums: &mut [u64; TREES],
)
    requires { ListReady list.now starts.now n (length work.old) × (i < trees_of list.now) × Sums (distance_of list.now) i 0 sums.old }
    ensures { Sums (distance_of list.now) (i + 1) 0 sums.new
        × SameFrom (list_cells list.now) work.old work.new }
{
    for j in 0..i {
        let d = pair_distance(list, starts, i, j, n, work);
        sums[i] += d;
        sums[j] += d;
    }
}

// The summed distances of the k trees of the list.
pub(crate) fn all_sums(
    list: &[u16],
    starts: &[usize; STARTS],
    k: usize,
    n: usize,
    work: &mut [Cell],
) -> [u64; TREES]
    requires { ListReady list.now starts.now n (length work.old) × (k ≡ trees_of list.now) }
    ensures { Sums (distance_of list.now) k 0 result
        × SameFrom (list_cells list.now) work.old work.new }
{
    let mut sums = [0u64; TREES];
    for i in 0..k {
        add_row(list, starts, i, n, work, &mut sums);
    }
    sums
}

// The earliest of the k positions with the least sum.
pub(crate) fn first_least(sums: &[u64; TREES], k: usize) -> usize
    requires { (1 ≤ k) × (k ≤ trees_most) }
    ensures { (result ≡ first_least (word sums.now) k) × (result < k) }
{
    let mut p = 0;
    for i in 0..k {
        let is_less = sums[i] < sums[p];
        if is_less {
            p = i;
        }
    }
    p
}
