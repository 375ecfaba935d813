//! What the ground count counts of an instance.
//!
//! An instance of a rule counts itself, the relevant instances of its choice's elements, its theory atoms, and the
//! relevant instances of their elements. Stands on `choice_rows` and `element_counts` for the instances, and on
//! `count_laws` for what they add up to.
#![tactic(auto)]

mod counting;

pub use counting::count_instance;
