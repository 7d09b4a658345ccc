// The canonical copy of a tree table: its kept part in the one way in which a tree can be written. The public function takes any
// words and marks in slices of any length, and answers in full or refuses with one number.
#![tactic(auto)]

mod ranks; // ranks.rt: the smallest kept label, and the ranks of labels and nodes
mod branches; // branches.rt: the smallest ranks, the branches of each node, and which nodes stay
mod numbers; // numbers.rt: the numbers of the nodes that stay
mod words; // words.rt: the words of the copy
mod copies; // copies.rt: the canonical copy

pub use copies::{CopyAnswer, canonical_copy};
