// Ranks: how many kept labels are smaller. The table is re-rooted at the smallest kept label, which changes places with label 0.
ghost use Rattle.std.specs.Prelude.{◌≡◌, ◌≤◌, length};
ghost use Rattle.table_words.specs.Sizes.{node_room};
ghost use Rattle.sums.specs.Tests.{first};
ghost use Rattle.marks.specs.Marks.{is_kept};
ghost use Rattle.canonical_copy.specs.lemmas.Ranks.{Rankable, RanksAre, NodeRanks};

use marks::is_kept;
use table_words::{NODES, TIPS};

// The smallest kept label, and the number of marks where none is kept.
pub(crate) fn first_kept(marks: &[u8]) -> usize
    ensures { result ≡ first (length marks.now) (is_kept marks.now) }
{
    for x in 0..marks.len() {
        if is_kept(marks, x) {
            return x;
        }
    }
    marks.len()
}

// The rank of each label of the re-rooted table, and k for struck labels. Label 0 is x, the first of the k kept ones.
pub(crate) fn label_ranks(marks: &[u8], x: usize, k: u16) -> [u16; TIPS]
    requires { Rankable marks.now x k }
    ensures { RanksAre marks.now x k result }
{
    let mut ranks = [k; TIPS];
    ranks[0] = 0;
    let mut rank = 1u16;
    for y in x + 1..marks.len() {
        if is_kept(marks, y) {
            ranks[y] = rank;
            rank += 1;
        }
    }
    ranks
}

// The rank at each node, and k where there is none.
pub(crate) fn node_ranks(labels: &[u16], ranks: &[u16; TIPS], k: u16) -> [u16; NODES]
    requires { length labels.now ≤ node_room }
    ensures { NodeRanks labels.now ranks.now k (length labels.now) result }
{
    let mut at = [k; NODES];
    for (v, label) in labels.iter().enumerate() {
        let y = usize::from(*label);
        if y < TIPS {
            at[v] = ranks[y];
        }
    }
    at
}
