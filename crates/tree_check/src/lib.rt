// A tree table checked. Every public function takes any words in slices of any length, and tells a tree or one number.
#![tactic(auto)]

mod refusals; // refusals.rt: the rules that can be broken, with their numbers
mod tallies; // tallies.rt: how often each word stands
mod table; // table.rt: the tree check

pub use refusals::{Refusal, TableRefusal, refusal_of};
pub use table::{Tree, check};
