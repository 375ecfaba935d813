//! Sums of integer variables and truths that are at most a number, as propagators.
//!
//! A sum that is true keeps each item within the slack that the least sum leaves, a false one is read as
//! the opposite sum by the same path of code, and an open one is set where its sums decide it. Every
//! reason is valid and names each bound that is needed, no stronger than it must be and none that the
//! ends imply; at `Quiet` all bounds are consistent, and they stay so while no bound or truth changes that
//! the sum touches. All sums are exact in 128 bits. Stands on `symbols`, `literals`, `linear_normal`,
//! `trail`, `trail_bounds` and `propagator_core`, and on `numbering_laws` for what the items of a sum have
//! to be.
#![tactic(auto)]

mod moves;
mod narrow;
mod places;
mod reason;
mod sum;
mod sum_propagator;
mod touches;

pub use sum_propagator::SumPropagator;
