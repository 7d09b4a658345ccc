// How far the exchange of two labels moves a tree.
ghost use Rattle.std.specs.Prelude.{◌≡◌};
ghost use Rattle.tree_check.specs.lemmas.Sized.{Sized};
ghost use Rattle.exchanges.specs.Exchanges.{exchange_distance};
ghost use Rattle.exchanges.specs.theorems.Others.{Two};
ghost use Rattle.exchange_distances.specs.ExchangeAnswers.{distance_answer};

use super::arrays::arrays_of;
use super::pairs::whole_of;
use super::paths::costs_from;
use table_words::{NODES, TIPS};
use trees::{asked_refusal, check, refusal_of};

// The number of the refusal with 0, or 0 with the distance.
// No Result: a refused call gives its number, and zeros (docs/SPECIFICATION.md, 7.2).
#[derive(Clone, Copy)]
pub struct ExchangeDistance {
    pub refusal: u16,
    pub distance: u64,
}

// The distance in a table that was checked, with n labels and m nodes: what the path from the one tip to the other takes, told from
// the whole.
fn distance_of(table: &[u16], n: usize, m: usize, x: usize, y: usize) -> usize
    requires { Sized table.now n m × Two n x y }
    ensures { result ≡ exchange_distance table.now x y }
{
    let mut labelled = [0u16; TIPS];
    let mut size = [0usize; NODES];
    let mut square = [0usize; NODES];
    arrays_of(table, n, m, &mut labelled, &mut size, &mut square);
    let mut toward = [0usize; NODES];
    let mut costs = [0usize; NODES];
    costs_from(
        &table[2..2 + m],
        n,
        usize::from(labelled[x]),
        &size,
        &square,
        &mut toward,
        &mut costs,
    );
    (whole_of(n) - costs[usize::from(labelled[y])]) / 6
}

// How many sets of four have another topology where the labels x and y are exchanged. The tree's order, then 10 and 11.
pub fn exchange_distance(table: &[u16], x: u16, y: u16) -> ExchangeDistance
    ensures { result ≡ distance_answer table.now x y }
{
    let answer = check(table);
    let Ok(tree) = answer else {
        return ExchangeDistance {
            refusal: refusal_of(answer),
            distance: 0,
        };
    };
    let asked = [x, y];
    let number = asked_refusal(&asked, usize::from(tree.tips));
    if number != 0 {
        return ExchangeDistance {
            refusal: number,
            distance: 0,
        };
    }
    let distance = distance_of(
        table,
        usize::from(tree.tips),
        usize::from(tree.nodes),
        usize::from(x),
        usize::from(y),
    );
    ExchangeDistance {
        refusal: 0,
        distance: distance as u64,
    }
}
