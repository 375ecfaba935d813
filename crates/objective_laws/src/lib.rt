//! Objectives are judged over numbers.
//!
//! The tuples of a program's objective are a sound objective of a ground program exactly where the objective is
//! not too large, so that the check of a ground program's parts can judge the program.
#![tactic(auto)]

mod laws;

pub use laws::objectives_are_judged;
