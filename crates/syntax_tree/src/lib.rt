//! What a text says, as trees, what a term is worth, and the text of a statement.
//!
//! A program is a list of statements, a statement is made of literals and terms, and a term is a tree
//! of parts. A type that leads back to itself holds its parts in `sqlite_items`' `Items` and `Boxed`,
//! all else in `Listed`.
#![tactic(auto)]

mod amount;
mod binding;
mod evaluation;
mod literal;
mod literal_text;
mod rule;
mod statement;
mod statement_text;
mod term;
mod term_text;
mod worth;
mod writing;

pub use binding::{Binding, Value};
pub use evaluation::evaluate;
pub use literal::{Guard, Literal, TheoryAtom, TheoryElement, TheoryName};
pub use rule::{Choice, ChoiceElement, Head, Name, Rule};
pub use statement::{Program, Statement};
pub use statement_text::print_statement;
pub use term::{Op, Part, Term};
pub use term_text::Joining;
