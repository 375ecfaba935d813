//! The grammar of texts: which words a text's tokens are, and what they derive.
//!
//! `specs` has the grammar as plain data: a type for each rule, a constructor for each of its forms,
//! with the words of a form, the tree that it stands for, and where its variables are. The laws say that the words of a form are
//! read as that form and no other. Stands on `lexer` for tokens and on `syntax_tree` for trees.
#![tactic(auto)]

mod check;
mod law;
mod mark;
mod shape;
mod words;

pub use check::{Check, Failing, sooner};
pub use law::{
    one_statement, one_term, one_text, one_theory, statements_keep_rules, words_are_written,
};
pub use mark::Mark;
pub use shape::Shape;
pub use words::{WordKind, bytes_at, is_mark, number_of, string_content, word_at};
