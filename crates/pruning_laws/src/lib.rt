//! What a search for rows may leave out.
//!
//! An atom that does not match what is bound when it is chosen gives no row, so a search that takes the atoms of an
//! index by a pattern finds the same rows; nor does a node give one at which a test fails whatever more is bound.
//! Stands on `instance_rows` and on `match_index`.
#![tactic(auto)]

mod laws;

pub use laws::searches_may_match;
