//! Which literal a search decides next, and the answer of a trail on which nothing is left to decide.
//!
//! `choose` gives an open literal, or nothing exactly where all is decided. Which one it gives is advice: what a search
//! learned from last comes first, with the truth or the value that it had last. Nothing holds of the advice, and each
//! place that it proposes is tested on the trail; where it proposes none, all is looked at. `Restarts` says when a search
//! begins anew, and `answer_of` gives a trail's answer. Stands on `literals`, `ground_model`, `trail`,
//! `conflict_analysis` and `trail_worlds`.
#![tactic(auto)]

mod advice;
mod answer;
mod order;
mod restarts;
mod scan;
mod split;
mod subjects;

pub use advice::{Advice, choose};
pub use answer::answer_of;
pub use restarts::Restarts;
