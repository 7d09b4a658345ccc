// Two tree tables: the evidence for one set of four. Every public function takes any words in slices of any length, and answers
// in full or refuses with one number.
#![tactic(auto)]

mod shown; // shown.rt: the case of four labels, and what shows it in each tree

pub use counting::Case;
pub use shown::{EvidenceAnswer, evidence};
