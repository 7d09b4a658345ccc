// Two tree tables: their triplet table. Every public function takes any words in slices of any length, and answers in full
// or refuses with one number.
#![tactic(auto)]

mod columns; // columns.rt: the columns with two labels or more, listed
mod edges; // edges.rt: what the edges of one tree add
mod pairs; // pairs.rt: what pairs of edges add
mod tables; // tables.rt: the triplet table of two trees

pub use tables::{TripletTable, triplet_table};
