// A tree table walked: the labels depth first, the part of a walk beyond an edge, the spans of all nodes, and cells added up a
// tree.
// Every public function takes any words in slices of any length.
#![tactic(auto)]

mod sizes; // sizes.rt: how many labels lie beyond each edge, and where they stand in the walk
mod walks; // walks.rt: the walk
mod edges; // edges.rt: the part of a walk beyond an edge
mod span_lists; // span_lists.rt: the node of each label, and where each node's labels stand in the walk

pub use edges::{PartBeyond, beyond, beyond_refusal, part_beyond};
pub use sizes::add_up;
pub use span_lists::spans;
pub use walks::walk;
