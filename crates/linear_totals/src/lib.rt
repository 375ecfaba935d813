//! Whether the sum of linear terms is small.
//!
//! The first places of tuples are summed, the right side is taken off, and it is told whether every coefficient and
//! the constant of what is left lie strictly between -2^62 and 2^62. Stands on `program_meaning` for what that means.
#![tactic(auto)]

mod constants;
mod gathering;
mod runs;
mod total;

pub use total::is_small_total;
