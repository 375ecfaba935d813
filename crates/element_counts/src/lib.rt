//! How many relevant instances the elements of a theory atom have.
//!
//! Under an instance of its rule each element of a theory atom has its rows of values; `count_elements` counts those of
//! all elements, as many as a limit allows. Stands on `theory_plans` for plans, on `instance_search` for rows, and on
//! `count_laws` for counts.
#![tactic(auto)]

mod counting;

pub use counting::count_elements;
