// What all pairs of nodes add to twice S2 and to S3. `n` labels are counted.
ghost use Rattle.std.specs.Prelude.{◌≡◌, ◌-◌, ◌≤◌, length};
ghost use Rattle.sums.specs.Sum.{sum};
ghost use Rattle.claims.specs.lemmas.Block.{Scratch};
ghost use Rattle.code_lists.specs.lemmas.InnerNodes.{InnerNodes};
ghost use Rattle.claims.specs.lemmas.PairLoops.{NodeRowRoom, NodePairs, PairsRoom, row_s2, row_s3, node_s2, node_s3};

use super::node_pair::node_pair;
use super::terms::PairTerms;
use code_lists::inner_nodes;
use table_words::{Cell, STARTS, TIPS};

// The cells of the largest block: TIPS rows of TIPS cells.
const BLOCK: usize = 65536;

// Few tips, and the cells of the largest block then: FEW rows of FEW cells.
const FEW: u16 = 64;

const SMALL: usize = 4096;

// A node of the first tree, given by its edges, with every node of the second: with the `count` nodes that `inner` begins
// with. Fewer than three codes make no claim.
fn node_row(
    work: &[Cell],
    width: usize,
    n: u16,
    rows: &[usize],
    second_parents: &[u16],
    second_starts: &[usize],
    second_edges: &[usize],
    inner: &[usize],
    count: usize,
    block: &mut [u16],
    sums: &mut [u64],
    totals: &mut [u64],
    down: &mut [u64],
    along: &mut [u64],
    dots: &mut [u64],
) -> PairTerms
    requires node_row_room { NodeRowRoom work.now width n rows.now second_parents.now second_starts.now
        second_edges.now (length block.old) }
    requires scratch { Scratch sums.old totals.old down.old along.old dots.old }
    requires inner_nodes { InnerNodes second_parents.now inner.now count (length second_parents.now)
        × (count ≤ length inner.now) }
    ensures { (result.s2 ≡ sum (length second_parents.now)
        (row_s2 work.now width n rows.now second_parents.now))
        × (result.s3 ≡ sum (length second_parents.now)
        (row_s3 work.now width n rows.now second_parents.now)) }
{
    if rows.len() < 3 {
        return PairTerms { s2: 0, s3: 0 };
    }
    let mut s2: u64 = 0;
    let mut s3: u64 = 0;
    for v in &inner[..count] {
        let from = second_starts[*v];
        let to = second_starts[*v + 1];
        let pair = node_pair(
            work,
            width,
            n,
            rows,
            &second_edges[from..to],
            block,
            sums,
            totals,
            down,
            along,
            dots,
        );
        s2 += pair.s2;
        s3 += pair.s3;
    }
    PairTerms { s2, s3 }
}

// Every node of the first tree with every node of the second, whose block is formed in `block`.
fn all_pairs(
    work: &[Cell],
    n: u16,
    first_parents: &[u16],
    first_starts: &[usize],
    first_edges: &[usize],
    second_parents: &[u16],
    second_starts: &[usize],
    second_edges: &[usize],
    block: &mut [u16],
) -> PairTerms
    requires { PairsRoom work.now (length second_parents.now - 1) n
        first_parents.now first_starts.now first_edges.now
        second_parents.now second_starts.now second_edges.now (length block.old) }
    ensures { (result.s2 ≡ sum (length first_parents.now)
        (node_s2 work.now (length second_parents.now - 1) n
        first_parents.now second_parents.now))
        × (result.s3 ≡ sum (length first_parents.now)
        (node_s3 work.now (length second_parents.now - 1) n
        first_parents.now second_parents.now)) }
{
    let width = second_parents.len() - 1;
    let mut inner = [0usize; STARTS];
    let count = inner_nodes(&second_starts[..second_parents.len() + 1], &mut inner);
    let mut sums = [0u64; TIPS];
    let mut totals = [0u64; TIPS];
    let mut down = [0u64; TIPS];
    let mut along = [0u64; TIPS];
    let mut dots = [0u64; TIPS];
    let mut s2: u64 = 0;
    let mut s3: u64 = 0;
    for v in 0..first_parents.len() {
        let from = first_starts[v];
        let to = first_starts[v + 1];
        let row = node_row(
            work,
            width,
            n,
            &first_edges[from..to],
            second_parents,
            second_starts,
            second_edges,
            &inner,
            count,
            block,
            &mut sums,
            &mut totals,
            &mut down,
            &mut along,
            &mut dots,
        );
        s2 += row.s2;
        s3 += row.s3;
    }
    PairTerms { s2, s3 }
}

// The same, of `kept` labels. The block of two nodes has no more than `tips` rows of `tips` cells: where the tips are
// few, a short one is enough.
pub(crate) fn pair_sums(
    work: &[Cell],
    kept: u16,
    tips: u16,
    first_parents: &[u16],
    first_starts: &[usize],
    first_edges: &[usize],
    second_parents: &[u16],
    second_starts: &[usize],
    second_edges: &[usize],
) -> PairTerms
    requires { NodePairs work.now (length second_parents.now - 1) kept tips
        first_parents.now first_starts.now first_edges.now
        second_parents.now second_starts.now second_edges.now }
    ensures { (result.s2 ≡ sum (length first_parents.now)
        (node_s2 work.now (length second_parents.now - 1) kept
        first_parents.now second_parents.now))
        × (result.s3 ≡ sum (length first_parents.now)
        (node_s3 work.now (length second_parents.now - 1) kept
        first_parents.now second_parents.now)) }
{
    if tips <= FEW {
        let mut block = [0u16; SMALL];
        return all_pairs(
            work,
            kept,
            first_parents,
            first_starts,
            first_edges,
            second_parents,
            second_starts,
            second_edges,
            &mut block,
        );
    }
    let mut block = [0u16; BLOCK];
    all_pairs(
        work,
        kept,
        first_parents,
        first_starts,
        first_edges,
        second_parents,
        second_starts,
        second_edges,
        &mut block,
    )
}
