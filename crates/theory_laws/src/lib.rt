//! A theory atom under an instance of its rule: what it comes to, and what keeps it from a collected form.
//!
//! The definitions say, of one theory atom, which causes it has, which of them is first, and what its collected
//! form is where it has none. All functions are laws: their contracts say what follows from the definitions,
//! and they do nothing. Stands on `program_meaning`.
#![tactic(auto)]

mod laws;

pub use laws::{causes_are_of_atoms, possible_atoms_collect_alike};
