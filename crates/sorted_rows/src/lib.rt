//! Rows in the order of instances.
//!
//! Rows of a search are sorted by their values from the left, symbols in their order and over last. Stands on
//! `instance_search` for rows.
#![tactic(auto)]

mod ordering;
mod sorting;

pub use sorting::sort_rows;
