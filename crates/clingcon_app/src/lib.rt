//! The top call: reads the texts of the inputs, solves their program and prints what was found.
//!
//! `run` promises, for every list of words and all texts, which status it ends with and what it then has
//! printed: at status 10 the one constraint stable model of the texts' program, at 65 the first refusal of a
//! text with its place. `one_outcome` says that the causes of the statuses exclude each other, and
//! `some_outcome` that words and texts are accepted or refused. Programs of facts and definite rules are solved
//! so far; any other is refused as not built. `texts` reads the inputs, `parsing` gives their program,
//! `answering` what is printed for it, and `running` is the thin shell over files and sinks. Stands on
//! `outside_io` for the outside, `asp_parser`, `text_laws` and `first_form` for the texts, `ground_model` for
//! the meaning.
#![tactic(auto)]

mod answering;
mod grounding;
mod law;
mod numbering;
mod parsing;
mod refusing;
mod running;
mod texts;
mod words;

pub use law::{one_outcome, some_outcome};
pub use running::{Report, run};
