//! That the ground rules of a program are sound.
//!
//! A ground program holds rules, tuples and numbers that are within bounds. Over the numbers of its atoms and
//! variables a rule of a program that is within its limits is, and so is its objective. All functions are
//! laws: their contracts say what follows from the definitions, and they do nothing. Stands on
//! `program_meaning`.
#![tactic(auto)]

mod laws;

pub use laws::{atoms_are_counted, rules_are_sound};
