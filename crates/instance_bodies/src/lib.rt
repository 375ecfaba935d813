//! The atoms of ground bodies.
//!
//! Under an instance the atoms of a body, or of the condition of a choice's element, are the different ones among its
//! literals, in order. Stands on `syntax_tree` for what a term is worth and on `symbol_rules` for ground rules.
#![tactic(auto)]

mod literals;
mod ordering;
mod sorting;

pub use literals::ground_literals;
