//! Statements of the first form: facts and definite rules over ground atoms.
//!
//! A statement is `atom .` or `atom :- atom, .., atom .`; an atom is an identifier with or without an
//! argument list, whose arguments are numbers and such identifiers. `read_statements` judges statements
//! that were read, and keeps each atom in a table of symbols.
#![tactic(auto)]

mod statement;
mod stop;
mod term;

pub use statement::{DefiniteStatement, MAX_DEPTH, MAX_STATEMENTS, read_statements};
pub use stop::FormStop;
