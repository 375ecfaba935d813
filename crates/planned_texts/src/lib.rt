//! The rules of texts, planned.
//!
//! `planned_texts` makes the plans of every rule of a rewritten program, of the elements of its choice and of its theory
//! atoms. Stands on `groundable_texts`, by which every rule of texts that are fine can be grounded, on `rule_planning`
//! and on `theory_plans`.
#![tactic(auto)]

mod planning;

pub use planning::{PlannedTexts, planned_texts};
