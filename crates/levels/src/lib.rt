// The levels of labels: checked, and the topology of four labels that a viewer may see. Every public function takes any words and
// bytes in slices of any length, and answers in full or refuses with one number.
#![tactic(auto)]

mod levels; // levels.rt: the levels checked, and which labels a viewer sees
mod topologies; // topologies.rt: the topology of four labels, for a viewer

pub use levels::{CheckedLevels, check_levels, is_visible};
pub use topologies::view_topology;
