// The exported functions for one tree with two labels exchanged. A slice is a pointer to its elements, then their number.
ghost use Rattle.std.specs.Prelude.{◌≡◌, length};
ghost use Rattle.exchange_distances.specs.ExchangeAnswers.{distance_answer};
ghost use Rattle.exchange_tallies.specs.ExchangeTallies.{exchange_answer, after_exchanges};
ghost use Rattle.capi.specs.PlainExchanges.{plain_tallies, plain_distance};

use super::answers::{ExchangeAnswer, ExchangeDistanceAnswer};
use exchange_distances::exchange_distance;
use exchange_tallies::exchange_tallies;
use table_words::Cell;

// How many exchanges of two labels fall in each of the eleven tallies; the lent cells are 0 afterwards.
#[unsafe(no_mangle)]
pub extern "C" fn leskwyn_exchange_tallies(table: &[u16], work: &mut [Cell]) -> ExchangeAnswer
    ensures { (result ≡ plain_tallies (exchange_answer table.now (length work.old)))
        × (work.new ≡ after_exchanges table.now work.old) }
{
    ExchangeAnswer::from(exchange_tallies(table, work))
}

// How far the exchange of two labels moves the tree.
#[unsafe(no_mangle)]
pub extern "C" fn leskwyn_exchange_distance(table: &[u16], x: u16, y: u16) -> ExchangeDistanceAnswer
    ensures { result ≡ plain_distance (distance_answer table.now x y) }
{
    ExchangeDistanceAnswer::from(exchange_distance(table, x, y))
}
