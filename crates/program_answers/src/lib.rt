//! The answers of a ground program, listed as printed blocks.
//!
//! `list_answers` numbers the constraints of a ground program, makes its input nogoods and its propagators,
//! and lists its answers by a search over them. Programs with an objective, and those with constraints about
//! tuples, are not listed yet. Stands on `linear_normal`, `completion` and `propagators` for what a
//! search works with, on `search_core` and `enumerator` for the search and the listing.
#![tactic(auto)]

mod listing;

pub use listing::{ListStop, Listing, list_answers};
