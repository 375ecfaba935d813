//! The checker of derivations: it takes each valid line, or says why it is none.
//!
//! It goes by the definitions of `derivation_meaning` alone: a line is taken exactly where it is valid, is
//! refused for the first cause that stands, and a refused line changes nothing. Stands on
//! `derivation_meaning`, `step_rules`, `completion`, `linear_normal`, `ground_model`, `literals` and
//! `derivation`.
#![tactic(auto)]

mod acceptance;
mod answer_lines;
mod answers;
mod chain;
mod checker;
mod ends;
mod judging;
mod lines;
mod live;
mod next;
mod refused;
mod same;
mod state;
mod table;

pub use acceptance::accepted_claim;
pub use checker::Checker;
pub use derivation_meaning::Claim;
pub use refused::{NotClosed, Refused};
