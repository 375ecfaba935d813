//! When a row of values is an instance.
//!
//! What a rule, an element of a choice or an element of a theory atom asks of the values of its variables is a
//! list of tests. Values pass them exactly where they are an instance, and a search in steps whose leaves are
//! tested finds each such row once. All functions are laws: their contracts say what follows from the
//! definitions, and they do nothing. Stands on `program_meaning`.
#![tactic(auto)]

mod laws;

pub use laws::{
    rows_find_possible_atoms, searches_find_rows, tests_find_instances, tests_find_overflow,
};
