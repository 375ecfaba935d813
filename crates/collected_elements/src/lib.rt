//! Elements and guards of theory atoms, collected.
//!
//! What one element of a theory atom comes to where the variables have their values: something in it is over, it is not
//! linear, a part is too large, or it has its tuple, or in `&dom` its two ends. Likewise a guard. Stands on
//! `collected_terms` for linear terms, on `row_tests` for intervals, and on `program_meaning` for what that means.
#![tactic(auto)]

mod domain;
mod duration;
mod element;
mod guard;
mod judged;
mod rest;
mod sides;
mod term;

pub use element::judge_element;
pub use guard::judge_guard;
pub use judged::{ElementStop, JudgedElement, JudgedTerm};
