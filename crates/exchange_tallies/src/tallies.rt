// How far each exchange of two labels moves a tree.
ghost use Rattle.std.specs.Prelude.{◌≡◌, length, replicate};
ghost use Rattle.exchange_tallies.specs.ExchangeTallies.{exchange_answer, after_exchanges};

use exchange_distances::{ExchangeAnswer, tally_exchanges};
use pair_check::clear;
use table_words::Cell;
use tree_check::{Refusal, check, refusal_of};

// A refusal has no tallies.
fn refused(number: u16) -> ExchangeAnswer
    ensures { result ≡ record { refusal = number; tallies = replicate 11 0 } }
{
    ExchangeAnswer {
        refusal: number,
        tallies: [0; 11],
    }
}

// How many exchanges of two labels have a distance that is, ten times it divided by the number of sets of four, 0, 1, .., 10. The
// first (m - 1)(m - 1) work cells are 0 afterwards. The tree's order, then 9.
pub fn exchange_tallies(table: &[u16], work: &mut [Cell]) -> ExchangeAnswer
    ensures { (result ≡ exchange_answer table.now (length work.old))
        × (work.new ≡ after_exchanges table.now work.old) }
{
    let answer = check(table);
    let Ok(tree) = answer else {
        return refused(refusal_of(answer));
    };
    let edges = usize::from(tree.nodes) - 1;
    let cells = edges * edges;
    if work.len() < cells {
        return refused(u16::from(Refusal::Cells));
    }
    clear(work, cells);
    tally_exchanges(table)
}
