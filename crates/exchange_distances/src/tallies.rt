// How far each exchange of two labels moves a tree.
ghost use Rattle.std.specs.Prelude.{◌≡◌, ◌≤◌};
ghost use Rattle.sums.specs.Lists.{in_order};
ghost use Rattle.tree_check.specs.lemmas.Sized.{Sized};
ghost use Rattle.exchanges.specs.Exchanges.{tally};
ghost use Rattle.exchange_distances.specs.ExchangeAnswers.{tallies_answer};
ghost use Rattle.exchange_distances.specs.lemmas.FirstTally.{all_first};

use super::arrays::arrays_of;
use super::pairs::tally_pairs;
use table_words::{NODES, TIPS};
use tree_check::{check, refusal_of};

// From so many tips on every exchange falls in tally 0: a distance grows as the third power of n, the sets of four as the fourth.
const LARGE: u16 = 82;

// The number of the refusal with zeros, or 0 with how many exchanges fall in each tally.
// No Result: a refused call gives its number, and zeros (docs/SPECIFICATION.md, 7.2).
#[derive(Clone, Copy)]
pub struct ExchangeAnswer {
    pub refusal: u16,
    pub tallies: [u64; 11],
}

// All n (n - 1) / 2 pairs in tally 0.
fn all_first(n: u64) -> [u64; 11]
    requires { (2 ≤ n) × (n ≤ 256) }
    ensures { result ≡ all_first n }
{
    let mut tallies = [0u64; 11];
    tallies[0] = n * (n - 1) / 2;
    tallies
}

// The tallies of a table that was checked, with n labels, four or more, and m nodes.
fn tallies_of(table: &[u16], n: usize, m: usize) -> [u64; 11]
    requires { Sized table.now n m × (4 ≤ n) }
    ensures { result ≡ in_order 11 (tally table.now) }
{
    let mut labelled = [0u16; TIPS];
    let mut size = [0usize; NODES];
    let mut square = [0usize; NODES];
    arrays_of(table, n, m, &mut labelled, &mut size, &mut square);
    tally_pairs(&table[2..2 + m], n, &labelled, &size, &square)
}

// How many exchanges of two labels have a distance that is, ten times it divided by the number of sets of four, 0, 1, .., 10.
pub fn tally_exchanges(table: &[u16]) -> ExchangeAnswer
    ensures { result ≡ tallies_answer table.now }
{
    let answer = check(table);
    let Ok(tree) = answer else {
        return ExchangeAnswer {
            refusal: refusal_of(answer),
            tallies: [0; 11],
        };
    };
    if tree.tips < 4 {
        return ExchangeAnswer {
            refusal: 0,
            tallies: all_first(u64::from(tree.tips)),
        };
    }
    if LARGE <= tree.tips {
        return ExchangeAnswer {
            refusal: 0,
            tallies: all_first(u64::from(tree.tips)),
        };
    }
    ExchangeAnswer {
        refusal: 0,
        tallies: tallies_of(table, usize::from(tree.tips), usize::from(tree.nodes)),
    }
}
