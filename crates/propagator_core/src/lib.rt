//! What a propagator is, and several of them called until all are quiet.
//!
//! A propagator is a constraint at work on a trail. The trait says what each call leaves: every entry
//! that it adds has a valid reason that forces it on the trail before it, a conflict's literals are all
//! true, and at `Quiet` no valid reason is left that would be a conflict or, for sums and domains, force
//! a literal. Each reason is one that a line can tell. A propagator that is quiet rests, and it rests on
//! while nothing changes of what it touches. What a propagator stands for is one record of plain data
//! that no call changes; its state is what its constraint and the entries at which it has looked
//! determine. Stands on `symbols`, `literals` and `trail`.
#![tactic(auto)]

mod outcome;
mod propagator;
mod several;
mod touch;

pub use outcome::Outcome;
pub use propagator::Propagator;
pub use several::propagate_all;
pub use touch::Touch;
