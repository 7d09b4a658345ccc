// The marks of labels: a byte for each, 1 kept and 0 struck. Every public function takes any bytes in a slice of any length.
#![tactic(auto)]

mod marked; // marked.rt: the marks checked, and a label asked for

pub use marked::{check_marks, is_kept};
