//! The trail: the literals that were set, one after another, with their levels and reasons.
//!
//! Clauses see a trail as its shape, its level, the order literals that were made and the list of its
//! entries. Bounds and truths are defined as the fold of the entries from the ends on, so that undoing,
//! which leaves the entries up to a level, gives back every bound exactly. The code keeps what the fold
//! gives in arrays: reading a truth or a bound is O(1), and undoing costs only the undone entries. Stands
//! on `symbols`, `literals` and `order_literals`.
#![tactic(auto)]

mod cells;
mod entry;
mod shape;
mod since;
mod trail;
mod undo;

pub use entry::{Entry, Placed, Why};
pub use shape::Shape;
pub use trail::Trail;
