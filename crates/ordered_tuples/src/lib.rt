//! Tuples in order, each once.
//!
//! `ordered_tuples` sorts tuples by what their ids name and drops those that say the same again; each that stays is
//! one of those it was given. Stands on `program_meaning`, whose order of tuples it is.
#![tactic(auto)]

mod set;

pub use set::ordered_tuples;
