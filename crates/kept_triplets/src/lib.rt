// Two tree tables: their triplets over the kept labels, with no work cells. Every public function takes any words in slices
// of any length, and answers in full or refuses with one number.
#![tactic(auto)]

mod edges; // edges.rt: the edges that add to the sums, listed, and what they add by themselves
mod places; // places.rt: the places of labels, and how many of them lie in a span
mod rows; // rows.rt: what pairs of edges add, row by row
mod tables; // tables.rt: the triplet table over kept labels
mod terms; // terms.rt: what an edge and what two edges add
mod totals; // totals.rt: the sums of two tables

pub use tables::kept_triplets;
pub use triplets::TripletTable;
