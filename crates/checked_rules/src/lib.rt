//! Rules that pass the checks of a text can be grounded.
//!
//! No left side of a comparison is an interval, theory atoms stand where they may, and named variables are numbered: this
//! stays so in the rewritten rule. All functions are laws, which do nothing. Stands on `rewriting`, `safety_meaning`,
//! `groundable_rules`, `rewritten_rules` and `interval_variables`.
#![tactic(auto)]

mod laws;

pub use laws::checked_rules_are_groundable;
