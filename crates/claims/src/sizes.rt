// The sizes of the sets of tips behind the codes into a node. `n` labels are counted.
ghost use Rattle.std.specs.Prelude.{length};
ghost use Rattle.tree_check.specs.Table.{word};
ghost use Rattle.claims.specs.lemmas.CodeSizes.{SizesRoom, code_size};
ghost use Rattle.claims.specs.lemmas.NodeBlock.{BlockWritten};

use super::fills::fill_row;
use table_words::{Cell, cell_word};

// The sizes, in the first cells of `sizes`. `edges` are the node's, its own first, and every `step`-th cell of the
// work is the size of an edge.
pub(crate) fn fill_sizes(work: &[Cell], step: usize, n: u16, edges: &[usize], sizes: &mut [u16])
    requires { SizesRoom work.now step n edges.now (length sizes.old) }
    ensures { BlockWritten sizes.old sizes.new 0 (length edges.now)
        (code_size work.now step n (word edges.now)) }
{
    fill_row(
        edges,
        0,
        |e| n - cell_word(work[e * step]),
        |e| cell_word(work[e * step]),
        sizes,
    );
}
