//! Ground choices.
//!
//! Under an instance of its rule a choice has the relevant instances of its elements, in order, each with its atom and
//! the atoms of its condition, and bounds on the count. Stands on `choice_rows` for the instances, and on
//! `instance_bodies` for conditions.
#![tactic(auto)]

mod atom;
mod bound;
mod choice;
mod item;
mod items;

pub use choice::{ChoiceStop, ground_choice};
