// The edges of the codes into each node of a tree, listed node after node, from its parent words.
#![tactic(auto)]

mod fits; // fits.rt: whether the codes of parent words are listed
mod lists; // lists.rt: the codes into each node counted, and their edges listed
mod inner; // inner.rt: the nodes with three codes or more into them

pub use inner::inner_nodes;
pub use lists::list_codes;
