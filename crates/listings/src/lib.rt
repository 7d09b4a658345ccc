// What the comparing program prints of a comparison, as bytes.
#![tactic(auto)]

mod figures; // figures.rt: what is printed of a comparison
mod text; // text.rt: words, numbers and lines put into a text
mod printed; // printed.rt: the listing of a comparison

pub use figures::{Claims, Figures, Quartets, Splits, Triplets};
pub use printed::{TEXT, listing};
