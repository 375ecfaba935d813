//! Ground programs with their constraints and bodies numbered.
//!
//! Each body and each constraint of a ground program has a number: every relation is a sum that is at most
//! a number, or two such sums joined by "and" or by "or", and a bound of a choice is a sum over the truths
//! of its atoms' tallies. Constraints of one content share one number. The definitions of the numbering, of
//! truth by number, of the bounds that literals name and of the rules by which a nogood is valid stand in
//! `specs/`; the laws above them are the contracts of functions: the numbering keeps truth in every world,
//! and a world meets what a valid step shows. `normalise` gives the numbering of a ground program: a hashed
//! table finds the constraints that are there. Stands on `symbols`, `literals`, `ground_model` and `indexmap`.
#![tactic(auto)]

mod body;
mod choice;
mod compared;
mod constraint;
mod copies;
mod holds;
mod joined;
mod laws;
mod numbered;
mod numbering;
mod relation;
mod rule;
mod selections;
mod sums;
mod supports;
mod table;
mod values;

pub use constraint::{Constraint, Item};
pub use laws::{numbering_keeps_truth, valid_steps_are_met, worlds_have_truths};
pub use numbered::{Conjunction, Duty, Numbered, Support};
pub use numbering::normalise;
