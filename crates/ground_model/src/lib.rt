//! Ground programs and what they mean.
//!
//! A `GroundProgram` has rules over numbered atoms and integer variables; its meaning is the set of its
//! constraint stable models, each an `Answer`. The definitions stand in `specs/`: what a rule gives, what
//! is derivable, when a theory atom is true, what an answer costs and how it is printed. Every later layer
//! is proved against them. Stands on `symbols`; numbers are printed by `itoa`.
#![tactic(auto)]

mod answer;
mod check;
mod copy;
mod cost;
mod definite;
mod duties;
mod flags;
mod int_set;
mod laws;
mod linear;
mod order;
mod print;
mod program;
mod reduct;
mod rule;
mod theory;
mod value;

pub use answer::Answer;
pub use check::is_answer;
pub use copy::copy_ground;
pub use cost::objective;
pub use definite::definite_answer;
pub use int_set::IntSet;
pub use laws::{
    definite_programs_have_one_model, ranks_do_not_matter, reducts_determine_models,
    spans_share_integers, stable_models_are_least, tests_decide_models,
};
pub use linear::{Linear, Place, Relation};
pub use print::write_answer;
pub use program::GroundProgram;
pub use rule::{BodyLit, Bound, ChoiceItem, GroundChoice, GroundHead, GroundRule, TheoryHead};
