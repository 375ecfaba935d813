//! Whether a rule shows that literals are a nogood of a numbered program.
//!
//! A step names a rule: a sum or the objective is beyond its bound, a distinct constraint has more places
//! than numbers, a disjoint one more work than fits or two places that cannot come one after the other,
//! atoms are supported only by each other, or a variable has no number left. `is_valid` says yes exactly
//! where the rule's definition in `linear_normal` does; its sums are exact in 128 bits. Stands on
//! `linear_normal`, `ground_model`, `literals` and `symbols`.
#![tactic(auto)]

mod bounds;
mod disjoint;
mod distinct;
mod hole;
mod loops;
mod named;
mod shown;
mod sum;
mod sums;
mod window;

pub use shown::{is_valid, is_valid_loop};
