//! Which instance is outside first, and by which cause.
//!
//! The first cause of an instance follows from what is over in it, from the first causes of its theory atoms, and from
//! values over the ends; the first instance that is outside is the first in order that has a cause. All functions are
//! laws: their contracts say what follows from the definitions, and they do nothing. Stands on `theory_laws`.
#![tactic(auto)]

mod laws;

pub use laws::{first_causes_are_found, first_instances_are_outside};
