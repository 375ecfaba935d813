// Statements and programs as they are written.
use crate::rule::Rule;
use crate::term::Term;
use symbols::Listed;

/// A statement. `is_statement` of `specs/Statements.antt` says which of them are trees of a text.
#[derive(Drop)]
pub enum Statement {
    Rule(Rule),
    /// A constant's name, its term, and where the name begins, in bytes from 0.
    Constant(Listed<u8>, Term, usize),
    ShowNothing,
    /// The predicate to show, by name and number of arguments.
    Show(Listed<u8>, u32),
}

/// The statements of all texts, in order, as `is_program` of `specs/Statements.antt` has them.
#[derive(Drop)]
pub struct Program {
    pub statements: Listed<Statement>,
    /// For each statement the number of its text.
    pub files: Listed<u32>,
}
