//! The ground count of a program.
//!
//! All relevant instances of a program's rules are counted with what stands in them, as far as a limit. Stands on
//! `possible_atoms` for the instances, and on `instance_counts` for each of them.
#![tactic(auto)]

mod counting;

pub use counting::exceeds_limit;
