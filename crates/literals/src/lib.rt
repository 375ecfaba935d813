//! Literals and nogoods.
//!
//! A literal says something of a world: that an atom, a body or a constraint is true or false there, or
//! that an integer variable is at most or at least some number. A nogood is a sorted list of literals
//! that are never all true; of two bounds on one side of a variable it has the stronger alone. What
//! `implies` answers and what `resolve` gives hold in every world. A world is read as a record of truths,
//! so nothing here speaks of a ground program. `Places` gives each literal its place in a flat table.
//! Stands on `symbols` and `smallvec`.
#![tactic(auto)]

mod lit;
mod merge;
mod nogood;
mod order;
mod places;
mod reason;
mod sorted;

pub use lit::{Lit, complement, implies};
pub use nogood::{Nogood, resolve};
pub use order::{before, has, same};
pub use places::{Counts, Places};
pub use reason::{Reason, Step};
pub use sorted::{has_sorted, lower_bound, standing_at, upper_bound};
