// Two tree tables: their weighted distance. Every public function takes any words in slices of any length and any weight, and
// answers in full or refuses with one number.
#![tactic(auto)]

mod distances; // distances.rt: the weighted distance of two trees
mod weight; // weight.rt: the weight of stars, its fraction, and the exact product

pub use distances::{WeightedDistance, weighted_distance};
pub use weight::Weight;
