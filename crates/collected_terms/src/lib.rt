//! Linear terms of theory atoms, collected.
//!
//! A term is read as a sum of integer variables with coefficients and a constant, each variable once and in
//! the order of symbols, as far as it is one: it may hold something undefined or over, be not linear, or hold
//! a number that is too large. Stands on `program_meaning` for what that means, and on `syntax_tree`.
#![tactic(auto)]

mod collected_term;
mod collecting;
mod forms;
mod leaf;
mod numbers;
mod operation;
mod sums;

pub use collected_term::{CollectedTerm, LinearForm};
pub use collecting::collect_term;
