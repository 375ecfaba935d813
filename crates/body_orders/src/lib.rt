//! Rules that can be grounded have their bodies in order.
//!
//! A body and a condition have one order at most, by `safety_meaning`; those of a rule that can be grounded have one.
//! All functions are laws, which do nothing. Stands on `safety_meaning` for the order, and on `groundable_rules`.
#![tactic(auto)]

mod laws;

pub use laws::safe_bodies_have_orders;
