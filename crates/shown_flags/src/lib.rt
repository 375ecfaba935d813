//! Which atoms and integer variables are shown, and which directives a program has.
//!
//! Without `#show` all atoms are shown, and with it those of the predicates that it names; without `&show` all
//! integer variables are, and with it those that its tuples name.
#![tactic(auto)]

mod atoms;
mod directives;
mod lone;
mod variables;

pub use atoms::shown_atoms;
pub use directives::{has_directive, has_objective};
pub use variables::shown_variables;
