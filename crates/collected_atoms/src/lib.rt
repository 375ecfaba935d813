//! Theory atoms, collected.
//!
//! From what the relevant instances of its elements and its guard come to, a theory atom is given in collected form: its
//! different tuples in order, or the integers of `&dom`, and the right side of its guard; or the first cause by which
//! it has none. Stands on `collected_elements` for elements and guards, and on `theory_laws` for what that means.
#![tactic(auto)]

mod atom;
mod collecting;
mod gathering;
mod settling;
mod tuples;
mod variables;

pub use atom::{AtomStop, CollectedAtom, CollectedGuard, OutsideCause};
pub use collecting::collected_atom;
pub use gathering::{Gathered, JudgedGuard, gather, nothing_gathered};
