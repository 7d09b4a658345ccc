// Whether the codes of parent words are listed.
ghost use Rattle.std.specs.Prelude.{◌≡◌};
ghost use Rattle.code_lists.specs.ListedCodes.{parents_fit, codes_fit};

use table_words::MOST_NODES;

// Whether there are 1 to MOST_NODES parent words, each node's parent before it.
fn parents_fit(parents: &[u16]) -> bool
    ensures { result ≡ parents_fit parents.now }
{
    if parents.len() < 1 {
        return false;
    }
    if MOST_NODES < parents.len() {
        return false;
    }
    for i in 1..parents.len() {
        if i <= usize::from(parents[i]) {
            return false;
        }
    }
    true
}

// Whether the words are such, and there are cells for all starts and all edges.
pub(crate) fn codes_fit(parents: &[u16], starts: usize, edges: usize) -> bool
    ensures { result ≡ codes_fit parents.now starts edges }
{
    if !parents_fit(parents) {
        return false;
    }
    if starts <= parents.len() {
        return false;
    }
    2 * (parents.len() - 1) <= edges
}
