//! Laws of a search, over what lower crates define.
//!
//! What a learned nogood leaves to propagate at the levels below, what the lines that give an answer and end a
//! search are, and when they are valid. Stands on `learning` and `propagators`, on `trail_worlds` for trails at
//! rest, and on `derivation_meaning` for what a valid line is.
#![tactic(auto)]

mod laws;

pub use laws::{learned_nogoods_wait, none_remains_beside_the_empty_nogood};
