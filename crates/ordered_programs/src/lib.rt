//! Programs of texts with their bodies in order.
//!
//! A text's program, rewritten, can be put in order where its rules can be grounded; its rules then are those of the
//! text in another order, so that they have the same possible atoms, instances and canonical ground program, by
//! `safety_meaning`. All functions are laws, which do nothing. Stands on `ordered_bodies`.
#![tactic(auto)]

mod laws;

pub use laws::ordered_programs_are_reordered;
