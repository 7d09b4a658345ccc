// One tree with two labels exchanged: how far each exchange moves it, with lent work or without, and how far one does. Every public
// function takes any words in slices of any length, and answers in full or refuses with one number.
#![tactic(auto)]

mod tallies; // tallies.rt: the work cells cleared, and the eleven tallies

pub use exchange_distances::{
    ExchangeAnswer, ExchangeDistance, exchange_distance, tally_exchanges,
};
pub use tallies::exchange_tallies;
