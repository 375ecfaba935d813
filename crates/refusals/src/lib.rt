//! The lines of refusals: where they point to in a text, and what they say.
//!
//! `failure_line` is the line of the first rule of rewritten texts that may not be grounded, `outside_line` that of an
//! instance that is outside, with the values of the rule's named global variables, and `variables_line` and
//! `objective_line` are those of whole programs. Stands on `inputs` for the form of a line, on `rewriting` for what
//! has a place in a rule, and on `load_meaning`, which says what each line is.
#![tactic(auto)]

mod atoms;
mod bindings;
mod flags;
mod lines;
mod places;
mod programs;
mod site;

pub use bindings::outside_line;
pub use lines::failure_line;
pub use programs::{objective_line, variables_line};
