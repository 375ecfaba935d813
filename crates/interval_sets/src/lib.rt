//! Sets of integers from ranges.
//!
//! Ranges are pairs of ends, of which the first may be the greater. It sorts them, and it joins them to a set of
//! intervals with gaps between them. Stands on `ground_model` for sets of integers.
#![tactic(auto)]

mod merging;
mod ranges;

pub use merging::set_of;
pub use ranges::distinct_ranges;
