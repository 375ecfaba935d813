//! Values of linear terms over the ends of integer variables.
//!
//! The variables of a tuple's first place lie between two ends, and so does its value: this crate says whether it can be
//! too large. Stands on `collected_terms` for linear terms.
#![tactic(auto)]

mod values;

pub use values::has_large_value;
