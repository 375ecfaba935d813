//! What both programs share of their texts: reading them within their sizes, and the program that they stand for or the line of the first
//! refusal.
//!
//! `read_texts` reads the texts of the inputs, each of at most 16 MiB and all of at most 64 MiB. `program_of_texts`
//! gives the statements of all texts with their constants replaced, or the line of the first fault of a text, or else
//! of the first constant that may not be. The laws say that texts, programs and lines are one, and that there is one.
//! Stands on `outside_io` for the outside, on `asp_parser` and `text_laws` for the texts.
#![tactic(auto)]

mod laws;
mod names;
mod parsing;
mod refusing;
mod texts;

pub use laws::{inputs_are_read_in_one_way, texts_are_refused_or_not, texts_have_one_program};
pub use parsing::{ProgramStop, program_of_texts};
pub use refusing::{count_line, line_at, too_large_line};
pub use texts::{TextsStop, read_texts};
