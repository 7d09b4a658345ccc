// The operations for callers in C and Rust: numbers, slices and plain structs. Each has the promise of the operation that
// it wraps.
#![tactic(auto)]

mod answers; // answers.rt: the answers as plain structs, each from a library's answer
mod exports; // exports.rt: the exported functions
mod labels; // labels.rt: those for one label: a tree re-rooted at it, the sets that hold it, and its mark changed
mod tables; // tables.rt: those that write a table of one tree: its canonical copy
mod tallies; // tallies.rt: those for one tree with two labels exchanged
mod lists; // lists.rt: the one for a list of trees
mod viewing; // viewing.rt: those for viewers, by levels of the labels
mod version; // version.rt: the release that the library is of
