//! From a conflict to the nogood that is learned, and the lines of a derivation that tell it.
//!
//! `learn` analyses a nogood whose literals are all true, and numbers what it gives: the reasons that the analysis
//! uses take an id each, and the learned nogood the one behind them. Laws say that these lines are valid one after
//! another and lead to the state in which the nogood is held, and that a trail stays explained, each entry a
//! decision or with a reason that a line can tell, as it grows, is undone and more is held. Stands on `trail`,
//! `nogood_store`, `propagator_core` and `conflict_analysis`, on `trail_worlds` for the shape of a program's trails,
//! and on `derivation_meaning` for what a valid line is.
#![tactic(auto)]

mod known;
mod laws;
mod lesson;

pub use known::Given;
pub use laws::{
    answers_are_held, conflicts_can_be_told, explained_trails_stay, fronts_are_valid,
    learned_lines_are_valid, states_are_reached,
};
pub use lesson::{Lesson, NoLesson, learn};
