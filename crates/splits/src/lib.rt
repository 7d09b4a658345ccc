// Two tree tables: their split counts. Every public function takes any words in slices of any length, and answers in full
// or refuses with one number.
#![tactic(auto)]

mod cells; // cells.rt: splits counted in the cells
mod counts; // counts.rt: the split counts of two trees

pub use counts::{SplitCounts, split_counts};
