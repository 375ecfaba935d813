//! Laws of whole texts: what is printed reads back, and a text is read in one way.
//!
//! A statement that a text parses to is printed by `syntax_tree::print_statement` as a text that parses to
//! the same statement; a text parses to one list of statements or has one first fault, and each text has one of
//! the two. Stands on `asp_parser` for what a text parses to, on `grammar` for forms and their words, on `lexer` for
//! tokens, and on `syntax_tree` for printed texts.
#![tactic(auto)]

mod law;

pub use law::{every_text_has_an_answer, printed_statements_read_back, texts_are_read_one_way};
