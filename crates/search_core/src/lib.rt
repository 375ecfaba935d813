//! The search for the constraint stable models of a ground program, one after another.
//!
//! Clauses see a search as its program, the state that valid lines of a derivation lead to, the count of learned
//! nogoods, and whether it is spent. Every step of `next` is a valid line, so each event follows from lines: an
//! answer is a model that remained, and where the search is exhausted none remains. Which literal is decided and
//! how nogoods are looked at stands in no clause. Stands on `propagation` for what is forced, on `learning` for
//! what is learned from a conflict, on `trail_worlds` for the model that a trail at rest is, and on
//! `derivation_meaning` for what a valid line is.
#![tactic(auto)]

mod begin;
mod descend;
mod event;
mod give;
mod notes;
mod overcome;
mod pieces;
mod room;
mod search;
mod seek;

pub use event::{Event, Stop};
pub use search::Search;
