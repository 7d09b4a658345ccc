// What a viewer is told of two tree tables, by levels of the labels. Every public function takes any words and bytes in slices of
// any length, and answers in full or refuses with one number.
#![tactic(auto)]

mod marking; // marking.rt: the marks that levels are for a viewer
mod pairs; // pairs.rt: what a viewer is told of a pair

pub use levels::view_topology;
pub use pairs::{ViewAnswer, view};
