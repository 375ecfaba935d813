//! Propagation to rest with a look for unfounded sets.
//!
//! Where `propagation::settle` has nothing left to say, a loop's reason may still force an atom to be false.
//! `settle_founded` sets it and propagates again, until no set of atoms is unfounded or a nogood has all
//! literals true. Stands on `propagation` and on `unfounded_sets`.
#![tactic(auto)]

mod founded;

pub use founded::settle_founded;
