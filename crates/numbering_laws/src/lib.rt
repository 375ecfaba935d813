//! Laws of the numbering of a ground program.
//!
//! Every number in a numbering names something: bodies name atoms and relations, a relation that is joined
//! names sums, sums count variables and tallies, each at most once, and the objective by number has the value
//! of the program's. Whoever makes propagators of a numbering's constraints, or nogoods of its bodies, needs
//! them. Stands on `linear_normal`, whose proofs stay as they are.
#![tactic(auto)]

mod laws;

pub use laws::{objective_keeps_value, parts_are_sums, sums_are_apart, theory_atoms_are_sound};
