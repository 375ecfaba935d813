//! Replacing constants keeps what the checks of a text leave of rules.
//!
//! The value of a constant has no variables and is no interval. All functions are laws, which do nothing. Stands on
//! `asp_parser` and `checked_rules`.
#![tactic(auto)]

mod laws;

pub use laws::rules_with_constants_replaced_are_checked;
