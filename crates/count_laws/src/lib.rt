//! Rows of values as keys of instances, and how many there are of what is counted.
//!
//! The rows of rules, list by list, are the keys of their instances, and so are those of the elements of a choice. What
//! the ground count counts adds up instance by instance. All functions are laws: their contracts say what follows from
//! the definitions, and they do nothing. Stands on `program_meaning` and `theory_laws`.
#![tactic(auto)]

mod laws;

pub use laws::{counts_add_up, rows_are_keys};
