//! The program of texts in which every rule may be grounded, or the line of the first refusal.
//!
//! `fine_program` reads the statements of texts, replaces constants, rewrites the rules and judges them. Stands on
//! `inputs` for the program of texts, on `rewriting` and `safety` for its rules, and on `refusals` for the line of one
//! that is not fine.
#![tactic(auto)]

mod fine;

pub use fine::{TextStop, fine_program};
