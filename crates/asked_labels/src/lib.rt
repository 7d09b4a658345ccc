// The labels that a caller asks about. Every public function takes any words in slices of any length.
#![tactic(auto)]

mod asked; // asked.rt: 10 and 11, and the node of a label

pub use asked::{asked_refusal, node_of};
