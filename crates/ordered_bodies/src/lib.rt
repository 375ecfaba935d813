//! Rules with their bodies in order.
//!
//! The literal that comes next in a body is the first that is ready, that is, each of whose variables is bound before
//! or bound by it; or, where none is, the first positive atom. So it is in the conditions of elements, where the
//! rule's global variables are bound before. Stands on `safety_meaning` for the order, of which there is one at most,
//! and on `body_orders`, by which a rule that can be grounded has one.
#![tactic(auto)]

mod ordering;
mod places;
mod program;
mod ready;
mod rules;
mod theories;

pub use program::order_bodies;
pub use rules::ordered_rule;
