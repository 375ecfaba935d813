//! The completion of a ground program as nogoods, and its loop nogoods.
//!
//! The definitions stand in `specs/`: the input nogoods of a ground program, in order, the loop nogood of a
//! set of atoms, and when a program is tight. A world meets all of them exactly where it is a constraint
//! stable model (Clark; Lin and Zhao; Gebser, Kaufmann, Schaub), and for a tight program it need meet no loop
//! nogoods (Fages). Stands on `linear_normal`, and on `definite_rules` for the test of tightness.
#![tactic(auto)]

mod atom;
mod body;
mod constraint;
mod input;
mod laws;
mod rule;
mod tight;

pub use input::complete;
pub use laws::{
    nogoods_have_the_stable_models, stable_models_meet_reasons, tight_programs_need_no_loops,
};
pub use tight::is_tight;
