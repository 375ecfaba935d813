//! What a program with variables means, and what grounding may rely on.
//!
//! The definitions stand in `specs/`, over the trees of `syntax_tree` in which intervals are the right sides
//! of `=` and whole elements of `&dom` alone: instances, possible and relevant, tuples in collected form, the
//! ground count, what is outside, safe and recursive rules, and the canonical ground program. Most functions
//! are laws: their contracts say what follows from the definitions, and they do nothing. It promises that a
//! program has one canonical ground program at most, with the program's constraint stable models and their
//! objective, and that a search in steps finds each instance once. Stands on `symbols`, `syntax_tree` and
//! `ground_model`.
#![tactic(auto)]

mod collected;
mod collecting;
mod comparing;
mod laws;
mod numbering;
mod pairs;
mod ranking;
mod relevance;
mod tuple_order;

pub use collected::{CollectedPlace, CollectedTuples, SymbolLinear};
pub use collecting::tuple_set;
pub use comparing::{Truth, compare_values, compare_worths, may_hold};
pub use laws::{
    canonical_programs_are_one, closed_sets_have_possible_atoms, collecting_keeps_values,
    elements_are_searched_alike, grounding_keeps_models, levels_fall, lists_decide_limits,
    models_are_possible, searches_find_each_once, tuples_are_sound,
};
pub use numbering::number_literal;
pub use pairs::add_pair;
pub use ranking::{AtomWorth, mark_head};
pub use relevance::is_possible_literal;
pub use tuple_order::compare_tuples;
