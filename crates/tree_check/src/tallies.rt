// How often each word stands among others.
ghost use Rattle.std.specs.Prelude.{◌≡◌, ◌≤◌, ◌<◌, length};
ghost use Rattle.table_words.specs.Sizes.{node_room};
ghost use Rattle.tree_check.specs.lemmas.Tally.{Tallied};

use table_words::NODES;

// How often each number below NODES stands among the words.
pub(crate) fn tally(words: &[u16]) -> [u16; NODES]
    requires { length words.now ≤ node_room }
    ensures { Tallied words.now (length words.now) result }
{
    let mut counts = [0u16; NODES];
    for word in words {
        let w = usize::from(*word);
        if w < NODES {
            counts[w] += 1;
        }
    }
    counts
}
