//! Rules without `_` and without intervals as arguments, and the order of their variables.
//!
//! Each `_` and each interval that is an argument gives way to a variable of its own, and an interval's
//! variable comes with the comparison `V = l..r`. `rewrite` does this for a program, and tells for each rule
//! all its variables in the order in which they first occur in its text. Stands on `syntax_tree`.
#![tactic(auto)]

mod literals;
mod order;
mod program;
mod rules;
mod sight;
mod terms;
mod walk;

pub use program::{RewrittenProgram, rewrite};
pub use sight::Sight;
