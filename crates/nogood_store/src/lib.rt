//! The nogoods that are held, under their ids, and unit propagation.
//!
//! Clauses see a store as the list of held nogoods in the order of their ids, with the literals of
//! the trail at which it has looked. `unit_propagate` sets what held nogoods force: each entry is the opposite
//! of the one literal of a held nogood that was not true. It ends with a held nogood whose literals are all
//! true, or where no held nogood has all literals true, or all but one true and that one open. Each nogood
//! has two watched literals, and is looked at when one of them becomes true; undoing moves none. Stands on
//! `symbols`, `literals` and `trail`.
#![tactic(auto)]

mod fresh;
mod propagate;
mod scan;
mod slot;
mod store;
mod visit;
mod watch;
mod watching;

pub use propagate::Unit;
pub use store::Store;
