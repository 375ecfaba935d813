//! The rules of a rewritten program, each beside its variables in order.
//!
//! A rewritten program has a list of variables for each statement; what grounds it goes over its rules alone. Stands on
//! `rewriting` and `groundable_texts`.
#![tactic(auto)]

mod ordered;

pub use ordered::{OrderedRule, ordered_rules};
