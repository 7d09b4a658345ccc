// Two tree tables checked together, with marks and the number of work cells or without. Every public function takes any words
// in slices of any length, and tells a pair or one number.
#![tactic(auto)]

mod pairs; // pairs.rt: the pair check
mod clearing; // clearing.rt: the lent work cells cleared

pub use clearing::clear;
pub use pairs::{Pair, check_cells, check_pair, check_work};
