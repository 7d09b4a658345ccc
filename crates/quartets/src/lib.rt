// Two tree tables: crossings, claim sums, the quartet table, split counts, the triplet table, and the evidence for four labels.
// Every public function takes any words in slices of any length, and answers in full or refuses with one number.
#![tactic(auto)]

mod tables; // tables.rt: the quartet table of two trees

pub use claims::{ClaimSums, claim_sums};
pub use evidence::{Case, EvidenceAnswer, evidence};
pub use pair_check::{Pair, check_cells, check_pair, check_work};
pub use splits::{SplitCounts, split_counts};
pub use tables::{QuartetTable, quartet_table};
pub use tree_check::{Refusal, TableRefusal, refusal_of};
pub use tree_pairs::crossings;
pub use triplets::{TripletTable, triplet_table};
