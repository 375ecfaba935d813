//! What rewriting leaves of the variables of a rule.
//!
//! Each variable that stands in a rewritten rule is in the rule's order, and the order numbers them. All functions are
//! laws, which do nothing. Stands on `rewriting` and `safety_meaning`.
#![tactic(auto)]

mod laws;

pub use laws::rewritten_rules_have_their_variables;
