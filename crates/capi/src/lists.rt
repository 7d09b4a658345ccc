// The exported function for a list of trees. A slice is a pointer to its elements, then their number.
ghost use Rattle.std.specs.Prelude.{◌≡◌, length};
ghost use Rattle.median_tree.specs.Nearest.{nearest_answer, after_nearest};
ghost use Rattle.capi.specs.PlainLists.{plain_nearest};

use super::answers::NearestAnswer;
use median_tree::nearest;
use table_words::Cell;

// The tree of the list that is nearest to all, and its summed distance; the lent cells are 0 afterwards.
#[unsafe(no_mangle)]
pub extern "C" fn leskwyn_nearest(shelf: &[u16], work: &mut [Cell]) -> NearestAnswer
    ensures { (result ≡ plain_nearest (nearest_answer shelf.now (length work.old)))
        × (work.new ≡ after_nearest shelf.now work.old) }
{
    NearestAnswer::from(nearest(shelf, work))
}
