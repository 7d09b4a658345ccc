// What is counted of two tree tables, and the theorem that the counts are right: theory in specs/, the type of a case, and how
// many sets of labels there are.
#![tactic(auto)]

mod fours; // fours.rt: how many sets of four labels there are
mod threes; // threes.rt: how many sets of three

pub use fours::sets_of_four;
pub use threes::sets_of_three;

// A: the same butterfly in both trees; B: two different ones; C: a butterfly in the first only; D: in the second only;
// E: a star in both.
#[derive(Clone, Copy)]
pub enum Case {
    A,
    B,
    C,
    D,
    E,
}
