// Two tree tables: their crossings. Every public function takes any words in slices of any length, and
// answers in full or refuses with one number.
#![tactic(auto)]

mod rows_of_tips; // rows_of_tips.rt: the rows of the first tree's tips
mod rows; // rows.rt: rows added up the first tree
mod crosses; // crosses.rt: the crossing counts of two trees

pub use crosses::{cross_all, cross_pair, crossings};
