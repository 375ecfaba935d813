//! Ground programs from the instances of rules.
//!
//! The rules of relevant instances one behind the other are those of the ground program; theory atoms in collected form
//! give relations, heads and integer variables. All functions are laws: their contracts say what follows from the
//! definitions, and they do nothing. Stands on `theory_laws` and `groundable_rules`.
#![tactic(auto)]

mod laws;

pub use laws::{
    collected_atoms_give_parts, directives_are_collected, instances_give_rules,
    variables_are_collected,
};
