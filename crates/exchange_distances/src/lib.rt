// One tree with two labels exchanged: how far one exchange moves the tree, and how far each does. Every public function takes any
// words in slices of any length, and answers in full or refuses with one number.
#![tactic(auto)]

mod arrays; // arrays.rt: the node of each label, and the sizes and squares of each node, that every walk reads
mod paths; // paths.rt: the cost of every path from one tip
mod pairs; // pairs.rt: each pair of labels in its tally
mod distances; // distances.rt: the distance of one exchange
mod tallies; // tallies.rt: the tallies of all exchanges

pub use distances::{ExchangeDistance, exchange_distance};
pub use tallies::{ExchangeAnswer, tally_exchanges};
