//! Plans of the theory atoms of a rule.
//!
//! `theory_plans` makes the plans of the searches of the elements of each theory atom of a rule, once for the rule.
//! Stands on `rule_plans`, and on `plan_terms` for the terms of plans.
#![tactic(auto)]

mod plan;
mod planning;

pub use plan::TheoryPlan;
pub use planning::theory_plans;
