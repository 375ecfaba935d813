//! Variables that are made for intervals are bound where the others are.
//!
//! Each comes with an equation whose other side has named variables and variables that were made later alone. All
//! functions are laws, which do nothing. Stands on `rewriting` and `safety_meaning`.
#![tactic(auto)]

mod laws;

pub use laws::interval_variables_are_bound;
