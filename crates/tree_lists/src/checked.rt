// The tables of a list checked, and the largest of them.
ghost use Rattle.std.specs.Prelude.{◌≡◌, not, ◌&&◌, ◌||◌, ◌-◌, ◌≤◌, ◌<◌, eqb, leb, length};
ghost use Rattle.sums.specs.Tests.{some};
ghost use Rattle.tree_check.specs.Table.{tips as table_tips};
ghost use Rattle.tree_check.specs.Refusals.{refusal as refusals_refusal};
ghost use Rattle.tree_check.specs.TreeOrder.{tree_order};
ghost use Rattle.tree_lists.specs.TreeLists.{trees_most, edges_at, wrong_tree, largest};
ghost use Rattle.tree_lists.specs.CheckedList.{refused_list, checked_list};
ghost use Rattle.tree_lists.specs.lemmas.Starts.{TableStarts};

use super::cut::{STARTS, edges_of, starts_of, word_0};
use tree_check::{Refusal, check};

// The number; how many trees there are; how many tips each has; how many edges the largest has; where each table starts, and where
// they end.
// No Result: a refused call gives its number, and zeros (docs/SPECIFICATION.md, 7.2).
#[derive(Clone, Copy)]
pub struct TreeList {
    pub refusal: u16,
    pub trees: usize,
    pub tips: usize,
    pub edges: usize,
    pub starts: [usize; STARTS],
}

// The number of a refused list, and zeros.
fn refused(number: u16) -> TreeList
    ensures { result ≡ refused_list number }
{
    TreeList {
        refusal: number,
        trees: 0,
        tips: 0,
        edges: 0,
        starts: [0; STARTS],
    }
}

// Whether there are 2 to 16 trees.
fn is_few(k: usize) -> bool
    ensures { result ≡ (leb 2 k && leb k trees_most) }
{
    let is_too_few = k < 2;
    if is_too_few {
        return false;
    }
    k <= 16
}

// Whether a table is refused, or its n is not this one.
fn is_wrong(table: &[u16], n: u16) -> bool
    ensures { result ≡ (not (eqb (refusals_refusal (tree_order table.now)) 0) || not (eqb (table_tips table.now) n)) }
{
    let answer = check(table);
    let Ok(tree) = answer else {
        return true;
    };
    tree.tips != n
}

// Whether one of the first k tables is.
fn some_wrong(list: &[u16], starts: &[usize; STARTS], k: usize, n: u16) -> bool
    requires { (1 ≤ length list.now) × (k ≤ trees_most) × TableStarts list.now k starts.now }
    ensures { result ≡ some k (wrong_tree list.now n) }
{
    for i in 0..k {
        let from = starts[i];
        let to = starts[i + 1];
        if is_wrong(&list[from..to], n) {
            return true;
        }
    }
    false
}

// The most edges that one of the first k tables has.
fn most_edges(list: &[u16], starts: &[usize; STARTS], k: usize) -> usize
    requires { (1 ≤ length list.now) × (k ≤ trees_most) × TableStarts list.now k starts.now }
    ensures { (result ≡ largest k (edges_at list.now)) × (result < 65536) }
{
    let mut most = 0;
    for i in 0..k {
        let from = starts[i];
        let to = starts[i + 1];
        let edges = edges_of(&list[from..to]);
        if most < edges {
            most = edges;
        }
    }
    most
}

// A list of 2 to 16 tables with the same n and no word more is cut and measured. 38, then 39.
pub fn check_list(list: &[u16]) -> TreeList
    ensures { result ≡ checked_list list.now }
{
    let k = usize::from(word_0(list));
    if is_few(k) {
        let starts = starts_of(list, k);
        let from = starts[0];
        let to = starts[1];
        let n = word_0(&list[from..to]);
        if some_wrong(list, &starts, k, n) {
            return refused(u16::from(Refusal::ListTree));
        }
        if starts[k] < list.len() {
            return refused(u16::from(Refusal::ListTree));
        }
        return TreeList {
            refusal: 0,
            trees: k,
            tips: usize::from(n),
            edges: most_edges(list, &starts, k),
            starts: starts,
        };
    }
    refused(u16::from(Refusal::ListLength))
}
