//! The terms of plans are those of their rules.
//!
//! Where a rule, an element of a choice or an element of a theory atom is a tree of a text, so is each term that its
//! plan lends. Stands on `instance_plans`.
#![tactic(auto)]

mod laws;

pub use laws::plans_are_of_terms;
