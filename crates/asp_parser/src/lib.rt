//! Whole texts: read from their tokens, and their constants replaced.
//!
//! `parse` reads a text statement by statement and gives the trees of all of them, or the first fault with its
//! line, its column and its cause. `replace_constants` gives a program in which each identifier that a statement
//! `#const n = t.` defines has given way to its value, or names the first constant that may not be defined so.
//! Stands on `theory_grammar` for terms and theory atoms, on `grammar` for what words derive, on `lexer` for
//! tokens, on `syntax_tree` for trees and the values of terms, and on `indexmap` for the table that finds a
//! constant by its name.
#![tactic(auto)]

mod as_variables;
mod body;
mod choice;
mod constant_table;
mod constant_term;
mod constants;
mod fault;
mod head;
mod in_literals;
mod in_rules;
mod in_terms;
mod kept;
mod kept_literals;
mod kept_rules;
mod kept_terms;
mod literal;
mod statement;
mod text;
mod variables;
mod words;

pub use constants::{ConstantStop, replace_constants};
pub use fault::{TextCause, TextFault, TextStop};
pub use text::parse;
