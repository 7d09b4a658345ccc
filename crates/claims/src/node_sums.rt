// What the nodes of a tree add to twice S. `n` labels are counted.
ghost use Rattle.std.specs.Prelude.{◌≡◌, ◌+◌, ◌*◌, ◌-◌, ◌≤◌, length};
ghost use Rattle.table_words.specs.Sizes.{tips_most};
ghost use Rattle.sums.specs.Sum.{sum};
ghost use Rattle.shapes.specs.Claims.{choose2};
ghost use Rattle.tree_check.specs.Table.{word};
ghost use Rattle.claims.specs.lemmas.CodeSizes.{code_size};
ghost use Rattle.claims.specs.lemmas.SumsByNode.{sizes_apart, node_sum};
ghost use Rattle.claims.specs.lemmas.SizeTerms.{SizesFew, size_term};
ghost use Rattle.claims.specs.lemmas.TreeSizes.{NodeSizes, TreeSizes};

use super::lines::{line_squares, line_sum};
use super::sizes::fill_sizes;
use table_words::Cell;

// How many pairs there are of s labels.
fn pairs_of(s: u64) -> u64
    requires { s ≤ tips_most }
    ensures { (result ≡ choose2 s) × (result ≤ 32768) }
{
    if s == 0 {
        return 0;
    }
    s * (s - 1) / 2
}

// What a code with s labels behind it gives, `pairs` being their pairs, where the others have `rest` behind them.
fn size_term(s: u64, pairs: u64, rest: u64) -> u64
    requires { (s ≤ tips_most) × (rest ≤ tips_most) × (pairs ≡ choose2 s) }
    ensures { (result ≡ size_term s rest) × (result ≤ 4294967296) }
{
    pairs * (rest * rest + s * s)
}

// What a node adds, from the sizes of the sets behind the codes into it.
fn node_term(sizes: &[u16], codes: usize) -> u64
    requires { SizesFew sizes.now codes }
    ensures { result ≡ sizes_apart codes (word sizes.now) }
{
    let whole = line_sum(sizes, 0, 1, codes);
    let squares = line_squares(sizes, 0, 1, codes);
    let mut plus: u64 = 0;
    let mut pairs: u64 = 0;
    for size in &sizes[..codes] {
        let s = u64::from(*size);
        let p = pairs_of(s);
        plus += size_term(s, p, whole - s);
        pairs += p;
    }
    plus - pairs * squares
}

// What a node adds, from its edges. Fewer than three codes make no claim.
fn node_sum(work: &[Cell], step: usize, n: u16, edges: &[usize], sizes: &mut [u16]) -> u64
    requires { NodeSizes work.now step n edges.now (length sizes.old) }
    ensures { result ≡ sizes_apart (length edges.now)
        (code_size work.now step n (word edges.now)) }
{
    if edges.len() < 3 {
        return 0;
    }
    fill_sizes(work, step, n, edges, sizes);
    node_term(sizes, edges.len())
}

// Twice S. Every `step`-th cell of the work is the size of an edge; `sizes` is lent for the sizes at a node.
pub(crate) fn tree_sum(
    work: &[Cell],
    step: usize,
    n: u16,
    parents: &[u16],
    starts: &[usize],
    edges: &[usize],
    sizes: &mut [u16],
) -> u64
    requires { TreeSizes work.now step n parents.now starts.now edges.now (length sizes.old) }
    ensures { (result ≡ sum (length parents.now) (node_sum work.now step n parents.now))
        × (result ≤ 699170560) }
{
    let mut total: u64 = 0;
    for v in 0..parents.len() {
        let from = starts[v];
        let to = starts[v + 1];
        total += node_sum(work, step, n, &edges[from..to], sizes);
    }
    total
}
