//! Ground programs from their parts.
//!
//! A `GroundProgram` keeps an invariant: numbers and symbols of its own, different tuples, sums that fit.
//! `GroundParts` are its fields without it, and `checked` makes the program of parts exactly where they meet
//! the invariant, in time linear in them. Stands on `ground_model`.
#![tactic(auto)]

mod different;
mod linear;
mod numbers;
mod objective;
mod parts;
mod places;
mod relation;
mod rules;
mod scratch;
mod span;
mod totals;

pub use parts::GroundParts;
