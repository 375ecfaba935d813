//! The rules that a text parses to pass the checks that grounding rests on.
//!
//! What `asp_parser` says of the forms of a text is said of their trees here. All functions are laws, which do nothing.
//! Stands on `asp_parser`, `text_laws`, `seen_forms` and `checked_rules`.
#![tactic(auto)]

mod laws;

pub use laws::parsed_rules_are_checked;
