//! The world that a trail gives.
//!
//! A trail of a ground program on which all is decided, no input nogood is all true, what needs work is settled
//! and nothing is unfounded gives a constraint stable model: its true atoms and its variables' values. The
//! definitions of such trails stand in `specs/`; a search cites them. Stands on `completion` for the nogoods'
//! models, on `numbering_laws` and `completion_laws`, on `trail`, and on `nogood_store` and `propagator_core` for
//! what is left to propagate.
#![tactic(auto)]

mod laws;

pub use laws::{
    calm_trails_are_answers, input_nogoods_are_of_the_shape, total_trails_have_one_cost,
    total_trails_have_one_sum, total_trails_say_their_answers, trails_at_rest_are_answers,
};
