// The tree of a list that is nearest to all.
ghost use Rattle.std.specs.Prelude.{◌≡◌, length};
ghost use Rattle.median_tree.specs.Nearest.{refused_nearest, nearest_answer, after_nearest};

use super::summed::{all_sums, first_least};
use pair_check::clear;
use table_words::{Cell, as_word};
use tree_check::Refusal;
use tree_lists::check_list;

// The number; the position of the tree, from 0; and its summed distance to all.
// No Result: a refused call gives its number, and zeros (docs/SPECIFICATION.md, 7.2).
#[derive(Clone, Copy)]
pub struct NearestAnswer {
    pub refusal: u16,
    pub position: u16,
    pub sum: u64,
}

// The number of a refused list, and zeros.
fn refused(number: u16) -> NearestAnswer
    ensures { result ≡ refused_nearest number }
{
    NearestAnswer {
        refusal: number,
        position: 0,
        sum: 0,
    }
}

// The position of the tree with the least summed distance to all, of equals the earliest, and that sum. The cells for the
// largest tree against itself are 0 afterwards. 38, 39, then 9.
pub fn nearest(list: &[u16], work: &mut [Cell]) -> NearestAnswer
    ensures { (result ≡ nearest_answer list.now (length work.old))
        × (work.new ≡ after_nearest list.now work.old) }
{
    let trees = check_list(list);
    if trees.refusal != 0 {
        return refused(trees.refusal);
    }
    let cells = trees.edges * trees.edges;
    if work.len() < cells {
        return refused(u16::from(Refusal::Cells));
    }
    let sums = all_sums(list, &trees.starts, trees.trees, trees.tips, work);
    clear(work, cells);
    let p = first_least(&sums, trees.trees);
    let sum = sums[p];
    NearestAnswer {
        refusal: 0,
        position: as_word(p),
        sum,
    }
}
