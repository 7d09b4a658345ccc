// The claim sums of two tree tables, from their crossings.
#![tactic(auto)]

mod code_cells; // code_cells.rt: the crossing of two codes, from the crossings of their edges
mod sizes; // sizes.rt: the sizes behind the codes into a node
mod lines; // lines.rt: sums along rows and columns of a block
mod node_sums; // node_sums.rt: what the nodes of a tree add to twice S
mod terms; // terms.rt: what two nodes add to the claim sums
mod cell_terms; // cell_terms.rt: what one cell of a block gives
mod cells; // cells.rt: what the cells of a block give, row by row
mod dots; // dots.rt: the dot products of pairs of lines
mod three_lines; // three_lines.rt: two nodes with three codes into one of them
mod blocks; // blocks.rt: what two nodes add, from the block of their cells
mod fills; // fills.rt: the block of the cells of two nodes
mod nine; // nine.rt: two nodes with three codes into each
mod node_pair; // node_pair.rt: what two nodes add, from the crossings of edges
mod pair_sums; // pair_sums.rt: what all pairs of nodes add
mod totals; // totals.rt: the claim sums of two trees

pub use totals::{ClaimSums, claim_sums};
