//! The first rule of a text that may not be grounded, and why.
//!
//! A rule fails by its first unsafe variable, then by its first atom in a condition of a theory atom that is of no domain
//! predicate, then by recursion with a variable. Stands on `variable_safety` and `predicate_order` for what a rule
//! fails by, and on `safety_meaning` for what that means.
#![tactic(auto)]

mod conditions;
mod failure;
mod finding;
mod judging;
mod variables;

pub use failure::{Failure, FirstFailure};
pub use finding::first_failure;
