//! Which predicates are no domain predicates, and which rules are recursive.
//!
//! Predicates have numbers, and both questions are least models: a predicate is blocked at once or by another one,
//! and it is depended on through the steps that rules give. Stands on `program_meaning` and `definite_rules`.
#![tactic(auto)]

mod laws;
mod predicate;
mod program;
mod reached;
mod reading;
mod reads;
mod ways;

pub use laws::ways_mean;
pub use predicate::Predicate;
pub use program::{blocking, steps};
pub use reached::{is_atom_reached, is_turning};
pub use reading::Reads;
pub use reads::{blocking_reads, step_reads};
pub use ways::{Way, Ways};
