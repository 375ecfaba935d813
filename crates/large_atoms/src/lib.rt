//! Theory atoms whose values over the ends are too large.
//!
//! Of the theory atoms of an instance in collected form, `&distinct` and `&disjoint` may have a first place that can come
//! to too large a value. Stands on `collected_atoms` for the theory atoms, and on `large_values` for values.
#![tactic(auto)]

mod atoms;

pub use atoms::has_large_atom;
