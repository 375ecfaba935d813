//! The relevant instances of the elements of choices.
//!
//! Under an instance of its rule each element of a choice has its rows of values, in order, and each of them says
//! whether something in it is over. Stands on `instance_search` and `sorted_rows` for rows, on `planned_rules` for plans,
//! and on `count_laws` for what they say.
#![tactic(auto)]

mod counting;
mod element;
mod rows;

pub use counting::count_choice;
pub use rows::{choice_rows, has_over};
