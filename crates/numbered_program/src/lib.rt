//! Canonical ground programs, from their parts over symbols.
//!
//! `ground_program` takes what instances give of a program, and gives its canonical ground program, or tells that
//! its objective is too large, the last of what a program is refused for. It judges the objective over numbers, by
//! the check of a ground program's parts, and the rest of the program's invariant follows from the laws of
//! `ground_rule_laws`.
#![tactic(auto)]

mod numbered;
mod parts;

pub use parts::{ProgramParts, ProgramStop, ground_program};
