//! How the possible atoms of a program are found.
//!
//! Rows of values over possible atoms are relevant instances, and over all of them they are exactly these. Atoms
//! to which no row adds anything are all possible ones, and more atoms or rows than a limit show that the ground
//! count exceeds it. All functions are laws: their contracts say what follows from the definitions, and they do
//! nothing. Stands on `instance_rows`.
#![tactic(auto)]

mod laws;

pub use laws::{found_things_are_counted, rows_are_relevant_instances, rows_give_possible_atoms};
