// One comparison file: its bytes compared.
#![tactic(auto)]

mod words; // words.rt: the words of a file
mod comparison; // comparison.rt: a file compared

pub use comparison::compare;
pub use listings::{Claims, Figures, Quartets, Splits, Triplets, listing};
