//! Which rules can be grounded.
//!
//! One premise for all that finds instances: the variables of a rule are few and bound, and its theory atoms stand
//! where they may. All functions are laws, which do nothing. Stands on `program_meaning`.
#![tactic(auto)]

mod laws;

pub use laws::groundable_rules_have_numbered_variables;
