// A list of tree tables that stand end to end: cut and checked. The public function takes any words in a slice of any length,
// and answers in full or refuses with one number.
#![tactic(auto)]

mod cut; // cut.rt: the words cut into tables
mod checked; // checked.rt: the tables checked, and the largest of them

pub use checked::{TreeList, check_list};
pub use cut::STARTS;
