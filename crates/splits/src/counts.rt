// The split counts of two trees.
ghost use Rattle.std.specs.Prelude.{◌≡◌, length};
ghost use Rattle.tree_pairs.specs.Crossings.{after_crossings};
ghost use Rattle.splits.specs.lemmas.SplitsCounted.{SplitsCountable, splits_counted};
ghost use Rattle.splits.specs.SplitAnswer.{split_answer};

use super::cells::{common_rows, edge_splits};
use table_words::Cell;
use tree_check::refusal_of;
use tree_pairs::cross_pair;

// The number; the first tree's splits, the second's, those of both; and the Robinson-Foulds distance.
// No Result: a refused call gives its number, and zeros (docs/SPECIFICATION.md, 7.2).
#[derive(Clone, Copy)]
pub struct SplitCounts {
    pub refusal: u16,
    pub first: u16,
    pub second: u16,
    pub common: u16,
    pub distance: u16,
}

// The splits of two trees given by their parents, whose crossings of the `kept` labels are in the cells.
fn count_splits(
    first_parents: &[u16],
    second_parents: &[u16],
    work: &[Cell],
    kept: u64,
) -> SplitCounts
    requires { SplitsCountable work.now kept first_parents.now second_parents.now }
    ensures { result ≡ splits_counted work.now kept first_parents.now second_parents.now }
{
    let width = second_parents.len() - 1;
    let first = edge_splits(work, width, first_parents, kept);
    let second = edge_splits(work, 1, second_parents, kept);
    let common = common_rows(work, width, first_parents, kept);
    SplitCounts {
        refusal: 0,
        first,
        second,
        common,
        distance: first + second - 2 * common,
    }
}

// The split counts among the kept labels, with the crossings in the cells afterwards. Tip edges are no splits.
pub fn split_counts(first: &[u16], second: &[u16], marks: &[u8], work: &mut [Cell]) -> SplitCounts
    ensures { (result ≡ split_answer first.now second.now marks.now (length work.old))
        × (work.new
        ≡ after_crossings first.now second.now marks.now work.old) }
{
    let answer = cross_pair(first, second, marks, work);
    let Ok(pair) = answer else {
        return SplitCounts {
            refusal: refusal_of(answer),
            first: 0,
            second: 0,
            common: 0,
            distance: 0,
        };
    };
    let m = pair.rows + 1;
    let k = pair.columns + 1;
    count_splits(
        &first[2..2 + m],
        &second[2..2 + k],
        work,
        u64::from(pair.counted),
    )
}
