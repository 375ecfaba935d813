//! The first cause of an instance that lies in its theory atoms.
//!
//! Where nothing outside the theory atoms of an instance is over, its first cause is that of its theory atoms, or a value
//! over the ends that is too large; or it has none, and its theory atoms have collected forms. Stands on
//! `instance_atoms` and `large_atoms`, and on `outside_laws` for causes.
#![tactic(auto)]

mod judging;

pub use judging::judge_atoms;
