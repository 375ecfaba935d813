//! Which variables occur where in a rule.
//!
//! A variable occurs in a term, in it outside every arithmetic operation, or is the term. It is global where it occurs
//! outside the elements of choices and theory atoms, and else local to an element. Stands on `program_meaning` for
//! what all that means.
#![tactic(auto)]

mod literals;
mod terms;
mod variables;

pub use literals::is_atom_bound;
pub use terms::{occurs, occurs_outside, plain_variable};
pub use variables::{choice_locals, element_locals, globals};
