//! What the propagator of a sum does for a program.
//!
//! A sum of a ground program's numbering has a propagator over the program's shape; what that calls valid is
//! exactly what a step of the sum shows, and where all is decided and it is settled the trail says of the sum
//! what its values say. Stands on `sum_propagator` and `trail_worlds`.
#![tactic(auto)]

mod laws;

pub use laws::sums_do_their_work;
