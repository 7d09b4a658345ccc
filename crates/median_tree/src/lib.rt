// The median tree of a list: the one nearest to all. The public function takes any words in slices of any length, and answers in
// full or refuses with one number.
#![tactic(auto)]

mod summed; // summed.rt: the summed distance of each tree to all
mod median; // median.rt: the tree nearest to all

pub use median::{NearestAnswer, nearest};
