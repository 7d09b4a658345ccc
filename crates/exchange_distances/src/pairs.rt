// Each pair of labels in the tally of its distance: from each label one walk, and one division for each label before it.
ghost use Rattle.std.specs.Prelude.{◌≡◌, ◌*◌, ◌-◌, ◌/◌, ◌≤◌};
ghost use Rattle.exchanges.specs.theorems.Walk.{whole_cost};
ghost use Rattle.exchange_distances.specs.lemmas.WalkArrays.{WalkedArrays};
ghost use Rattle.exchange_distances.specs.lemmas.TallyLoops.{falls_at, CountedTallies};
ghost use Rattle.exchange_distances.specs.lemmas.TallyRoom.{TallyRowRoom};
ghost use Rattle.exchange_distances.specs.lemmas.PairTallies.{ShapeTallied};

use super::paths::costs_from;
use counting::sets_of_four;
use table_words::{NODES, TIPS};

// Six times the distance of a path that takes nothing.
pub(crate) fn whole_of(n: usize) -> usize
    requires { (2 ≤ n) × (n ≤ 256) }
    ensures { result ≡ whole_cost n }
{
    let k = n - 2;
    2 * (k * (k * k)) + 3 * (k * k)
}

// The pairs of the label y with each smaller one, from what the paths from its tip take.
fn tally_row(
    y: usize,
    whole: usize,
    sets: usize,
    labelled: &[u16; TIPS],
    costs: &[usize; NODES],
    tallies: &mut [u64; 11],
)
    requires { TallyRowRoom y whole sets labelled.now costs.now tallies.old }
    ensures { CountedTallies (falls_at whole sets labelled.now costs.now) y tallies.old
        tallies.new }
{
    for &tip in &labelled[..y] {
        let path = costs[usize::from(tip)];
        let t = 10 * ((whole - path) / 6) / sets;
        tallies[t] += 1;
    }
}

// All pairs of four labels or more.
pub(crate) fn tally_pairs(
    parents: &[u16],
    n: usize,
    labelled: &[u16; TIPS],
    size: &[usize; NODES],
    square: &[usize; NODES],
) -> [u64; 11]
    requires { WalkedArrays n parents.now labelled.now size.now square.now × (4 ≤ n) }
    ensures { ShapeTallied n parents.now labelled.now size.now square.now result }
{
    let whole = whole_of(n);
    let sets = sets_of_four(n as u16) as usize;
    let mut toward = [0usize; NODES];
    let mut costs = [0usize; NODES];
    let mut tallies = [0u64; 11];
    for (y, &tip) in labelled[..n].iter().enumerate() {
        costs_from(
            parents,
            n,
            usize::from(tip),
            size,
            square,
            &mut toward,
            &mut costs,
        );
        tally_row(y, whole, sets, labelled, &costs, &mut tallies);
    }
    tallies
}
