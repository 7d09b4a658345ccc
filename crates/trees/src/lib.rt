// The tree library: a table of words is checked, walked, and asked for centres and topologies.
// Every public function takes any words in slices of any length, and answers in full or refuses with one number.
#![tactic(auto)]

mod centres; // centres.rt: the centre of three labels
mod quartet; // quartet.rt: the topology of four labels
mod witness; // witness.rt: the edge that parts four labels, or the node where they meet

pub use asked_labels::{asked_refusal, node_of};
pub use centres::{CentreAnswer, centre};
pub use quartet::{Topology, TopologyAnswer, topology_of};
pub use tree_check::{Refusal, TableRefusal, Tree, check, refusal_of};
pub use walks::{PartBeyond, beyond, beyond_refusal, part_beyond, spans, walk};
pub use witness::{Witness, WitnessAnswer, witness_of};
