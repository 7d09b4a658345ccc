// The numbers of the nodes that stay: depth first, children by their smallest rank.
ghost use Rattle.std.specs.Prelude.{◌+◌};
ghost use Rattle.canonical_copy.specs.lemmas.Chains.{Chainable, ChainsAre};
ghost use Rattle.canonical_copy.specs.lemmas.Numbering.{Round, Going, RanksReady, NumbersAre};

use table_words::{NODES, as_word};

// The nodes but 0 with each smallest rank, in order: the first of them, and after each node the next; m after the last.
pub(crate) fn chain(
    lows: &[u16; NODES],
    m: usize,
    heads: &mut [u16; NODES],
    nexts: &mut [u16; NODES],
)
    requires { Chainable lows.now m heads.old nexts.old }
    ensures { ChainsAre lows.now m 1 heads.new nexts.new }
{
    for v in (1..m).rev() {
        let x = usize::from(lows[v]);
        nexts[v] = heads[x];
        heads[x] = as_word(v);
    }
}

// The round of rank x: each node whose smallest rank is x takes its parent's next free number.
pub(crate) fn number_round(
    parents: &[u16],
    sizes: &[u16; NODES],
    bits: &[u16; NODES],
    heads: &[u16; NODES],
    nexts: &[u16; NODES],
    x: usize,
    numbers: &mut [u16; NODES],
    frees: &mut [u16; NODES],
)
    requires { Round parents.now sizes.now bits.now heads.now nexts.now x numbers.old frees.old }
    ensures { Going parents.now sizes.now bits.now heads.now nexts.now
        (x + 1) numbers.new frees.new }
{
    let mut v = usize::from(heads[x]);
    while v < parents.len() {
        let p = usize::from(parents[v]);
        let number = frees[p];
        numbers[v] = number;
        frees[v] = number + bits[v];
        frees[p] = number + sizes[v];
        v = usize::from(nexts[v]);
    }
}

// The numbers of all nodes with ranks at them or below: node 0 has 0, and then comes a round for each of k ranks.
pub(crate) fn numbers(
    parents: &[u16],
    sizes: &[u16; NODES],
    bits: &[u16; NODES],
    heads: &[u16; NODES],
    nexts: &[u16; NODES],
    k: usize,
) -> [u16; NODES]
    requires { RanksReady parents.now sizes.now bits.now heads.now nexts.now k }
    ensures { NumbersAre parents.now sizes.now bits.now heads.now nexts.now k result }
{
    let mut numbers = [0u16; NODES];
    let mut frees = [0u16; NODES];
    frees[0] = 1;
    for x in 0..k {
        number_round(
            parents,
            sizes,
            bits,
            heads,
            nexts,
            x,
            &mut numbers,
            &mut frees,
        );
    }
    numbers
}
