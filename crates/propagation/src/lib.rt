//! Propagation to rest: held nogoods, then the propagators that are awake, until nothing is left to say.
//!
//! A propagator is called again only where something that it touches has changed. `settle` ends where held
//! nogoods force nothing and each propagator rests, or at a nogood whose literals are all true; `decide`
//! and `go_back` are the steps between, after which it can be called again. Stands on `trail` and
//! `nogood_store`, on `propagator_core` for what a call of a propagator leaves, on `conflict_analysis` for
//! what an analysis starts from, and on `trail_worlds` for what calm means.
#![tactic(auto)]

mod calls;
mod found;
mod queue;
mod rest;
mod steps;
mod wakes;

pub use found::Found;
pub use queue::Queue;
pub use rest::settle;
pub use steps::{decide, go_back};
pub use wakes::Wakes;
