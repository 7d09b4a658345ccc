// The branches of each node: the smallest rank at it or below, how many children have ranks there, and which nodes stay.
ghost use Rattle.std.specs.Prelude.{◌≡◌, ◌||◌, ◌≤◌, ltb, leb, length};
ghost use Rattle.table_words.specs.Sizes.{node_room};
ghost use Rattle.sums.specs.Bits.{bit};
ghost use Rattle.canonical_copy.specs.lemmas.Parents.{ParentsBefore};
ghost use Rattle.canonical_copy.specs.lemmas.LeastBelow.{LeastBelow};
ghost use Rattle.canonical_copy.specs.lemmas.Staying.{BranchCounts, StayBits, OwnAtMostOne, SizesAre};

use table_words::NODES;

// The smallest of what stands at a node or below, from what stands at each: each node's goes to its parent, from the last on.
pub(crate) fn lower(parents: &[u16], lows: &mut [u16; NODES])
    requires { ParentsBefore parents.now × (length lows.old ≡ node_room) }
    ensures { LeastBelow parents.now lows.old lows.new }
{
    for c in (1..parents.len()).rev() {
        let p = usize::from(parents[c]);
        let low = lows[c];
        if low < lows[p] {
            lows[p] = low;
        }
    }
}

// How many children with a rank at them or below each node has.
pub(crate) fn branch_counts(parents: &[u16], lows: &[u16; NODES], k: u16) -> [u16; NODES]
    requires { ParentsBefore parents.now }
    ensures { BranchCounts parents.now lows.now k (length parents.now) result }
{
    let mut counts = [0u16; NODES];
    for c in 1..parents.len() {
        if lows[c] < k {
            let p = usize::from(parents[c]);
            counts[p] += 1;
        }
    }
    counts
}

// 1 for a node with a rank or two branches, else 0.
fn stays(rank: u16, k: u16, branches: u16) -> u16
    ensures { result ≡ bit (ltb rank k || leb 2 branches) }
{
    if rank < k {
        return 1;
    }
    if 2 <= branches {
        return 1;
    }
    0
}

// 1 for each of m nodes that stays.
pub(crate) fn stay_bits(
    ranks: &[u16; NODES],
    branches: &[u16; NODES],
    m: usize,
    k: u16,
) -> [u16; NODES]
    requires { m ≤ node_room }
    ensures { StayBits ranks.now branches.now k m result }
{
    let mut bits = [0u16; NODES];
    for v in 0..m {
        bits[v] = stays(ranks[v], k, branches[v]);
    }
    bits
}

// How many nodes stay at each node and below, from 1 for each that stays.
pub(crate) fn add_sizes(parents: &[u16], sizes: &mut [u16; NODES])
    requires { ParentsBefore parents.now × OwnAtMostOne (length parents.now) sizes.old }
    ensures { SizesAre parents.now sizes.old 1 sizes.new }
{
    for c in (1..parents.len()).rev() {
        let p = usize::from(parents[c]);
        sizes[p] += sizes[c];
    }
}
