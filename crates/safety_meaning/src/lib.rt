//! Which program a text stands for, which of its rules fails first, and the order of bodies.
//!
//! The program is a function of the statements' trees: its rules are rewritten by `rewriting`, and their
//! variables stand in the order of the text. All functions are laws: their contracts say what follows from the
//! definitions, and they do nothing. Stands on `rewriting` and `program_meaning`.
#![tactic(auto)]

mod laws;

pub use laws::{
    one_failure, one_order, reordered_grounds, reordered_programs, reordered_rules, text_programs,
};
