//! The ground program of what the relevant instances of a program gave.
//!
//! `whole_program` puts atoms and tuples in order, finds what is shown, and gives the canonical ground program, or says
//! that its objective is too large. Stands on `objective_parts` and `shown_flags` for the parts, and on
//! `numbered_program`, which puts numbers for symbols.
#![tactic(auto)]

mod grounding;
mod parts;
mod whole;

pub use grounding::Grounding;
pub use whole::whole_program;
