//! Which variables of a rule are unsafe.
//!
//! A variable is unsafe where it is global and the body does not bind it, or local to an element that does not bind
//! it. What literals bind is a least model: a positive atom gives the variables that occur in it outside arithmetic,
//! and an equation gives the variable that is one side of it once those of the other side are given. Stands on
//! `program_meaning` for what that means, and on `definite_rules`.
#![tactic(auto)]

mod bindings;
mod bound;
mod flags;
mod given;
mod literals;
mod noting;
mod terms;
mod unsafety;

pub use unsafety::unsafe_variables;
