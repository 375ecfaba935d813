//! Ground rules over numbers, from those over symbols.
//!
//! Grounding makes rules that name atoms and variables by their symbols; a ground program names them by
//! numbers, in the order of symbols. `numbers_by_id` gives each id of a table its number, `numbered_rules` and
//! `numbered_places` put them into rules and tuples.
#![tactic(auto)]

mod linear;
mod numbering;
mod numbers;
mod rules;

pub use numbering::{numbered_places, numbered_rules, numbers_by_id};
