//! Counts over columns of intervals, and rows of bits joined, in lanes of `std::simd`.
//!
//! Each kernel equals its plain definition for every length: vectors take whole groups of lanes,
//! and a plain loop takes the places after the last group. All take time linear in the places.
//! No memory is taken. It stands on std alone.
#![tactic(auto)]

mod count;
mod load;
mod rows;

pub use count::count_within;
pub use load::load_within;
pub use rows::{and_into, or_into};
