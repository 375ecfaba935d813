//! The tuples of a program's directives, by name.
//!
//! `directed_places` puts the tuples that relevant instances of `&minimize`, `&maximize` and `&show` gave into the
//! three sets of the program, each in order and each tuple once. Stands on `directed_tuples`.
#![tactic(auto)]

mod gathered;
mod sets;

pub use sets::{DirectedPlaces, directed_places};
