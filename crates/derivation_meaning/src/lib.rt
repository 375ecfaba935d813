//! What a derivation means, and why its claim can be believed.
//!
//! The definitions stand in `specs/`: the state between two lines, which line is valid in it, the state after
//! it, why a line is refused, which lines are accepted with which claim, and what a claim says of the
//! constraint stable models of a ground program and of the answers that were given. The law is that an
//! accepted derivation's claim is true. Nothing of a search or of a checker's tables stands here: order
//! literals are named by variable and number alone. Stands on `ground_model`, `linear_normal`, `completion`,
//! `literals` and `derivation`.
#![tactic(auto)]

mod claim;
mod excluding;
mod laws;

pub use claim::Claim;
pub use excluding::answer_nogood;
pub use laws::{
    accepted_claims_hold, lines_are_joined, lines_have_one_verdict, live_nogoods_are_met,
    reasons_stay_valid, valid_lines_give_models,
};
