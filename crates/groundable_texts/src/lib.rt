//! The rules of texts that are fine can be grounded.
//!
//! What a text parses to passes the checks, stays so when constants are replaced, and can be grounded once it is
//! rewritten. All functions are laws, which do nothing. Stands on `inputs`, `parsed_rules`, `replaced_rules` and
//! `checked_rules`.
#![tactic(auto)]

mod laws;

pub use laws::rules_of_texts_are_groundable;
