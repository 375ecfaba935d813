//! All constraint stable models of a program, one after another, as printed blocks.
//!
//! `list` asks a search for one answer after another, and prints the block of each as soon as it is there and how it
//! ended. What it says is in terms of one list of valid lines of a derivation: the answers that they give are what is
//! printed, and where the search ended because nothing is left they are accepted with the claim that is told. Stands on
//! `search_core`, on `ground_model` for the printed text, on `outside_io`, and on `derivation_meaning` for the laws.
#![tactic(auto)]

mod listing;
mod summary;

pub use listing::list;
pub use summary::{Ending, Summary};
