//! What propagators share: the numbers that an item of a sum may count on a trail, the literals on which
//! its least value stands, and the literal that it needs where it exceeds a slack.
//!
//! A reason may name a weaker bound than the trail's where something is left of a slack: every call says
//! what it took. A false sum is read as the opposite sum, with the opposite coefficients. Stands on
//! `symbols`, `literals`, `linear_normal` and `trail`, and on `numbering_laws` for what an item may count.
#![tactic(auto)]

mod backing;
mod implied;
mod item;
mod range;
mod steps;

pub use backing::back_item;
pub use implied::{Needed, implied_bound};
pub use item::{greatest_of, least_of, number_in, signed, swing};
pub use range::{Range, range_on};
