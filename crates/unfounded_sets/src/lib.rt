//! Unfounded sets: atoms that are supported only by each other.
//!
//! `Unfounded` stands for the positive dependence of a ground program. On a trail it finds a set of atoms that are
//! not false, of which each body that supports one from outside is false, and gives the loop nogood of one of them
//! as a reason; or it answers that there is none (van Gelder, Ross, Schlipf 1991; Lin and Zhao 2004; Gebser,
//! Kaufmann, Schaub 2012). On a trail at rest it reads the sources of the atoms on cycles, which are checked and
//! never trusted. Stands on `linear_normal` for the numbering, `trail`, `trail_worlds` for what an
//! unfounded set on a trail is, `propagator_core` for reasons that a line can tell, and `definite_rules`.
#![tactic(auto)]

mod components;
mod cut;
mod dependence;
mod flags;
mod founded;
mod groups;
mod laws;
mod loops;
mod lost;
mod reason;
mod rows;
mod sources;
mod table;
mod truth;
mod unfounded;

pub use laws::{inputs_hold_supports, shown_loops_are_valid, supports_stand_at_rest};
pub use unfounded::Unfounded;
