//! Collected theory atoms as the table of symbols grows.
//!
//! A theory atom in collected form names symbols of a table, and it stays what it is as the table grows. The function
//! is a law, which does nothing. Stands on `collected_atoms`.
#![tactic(auto)]

mod laws;

pub use laws::collected_atoms_stay_as_tables_grow;
