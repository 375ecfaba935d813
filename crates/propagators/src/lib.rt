//! The propagators of a program.
//!
//! Each sum and each domain constraint of a ground program's numbering has its propagator: what these call
//! valid is exactly what steps of constraints show, each constraint that needs one is settled by one, and
//! they fit the program's shape, rest steadily and stand for a trail without entries. Stands on
//! `linear_normal` for the numbering, on `sum_propagator` for sums, on `trail` and `propagator_core` for what
//! a propagator is, and on `sum_laws` and `trail_worlds` for what they do for a program.
#![tactic(auto)]

mod any;
mod domain;
mod gap;
mod listing;
mod reason;
mod tuples;

pub use any::Any;
pub use domain::DomainPropagator;
pub use listing::propagators_of;
pub use tuples::has_tuples;
