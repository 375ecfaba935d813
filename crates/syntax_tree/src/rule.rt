// Rules as they are written.
use crate::literal::{Guard, Literal, TheoryAtom};
use crate::term::Term;
use symbols::Listed;

/// What a rule gives.
#[derive(Drop)]
pub enum Head {
    Nothing,
    Atom(Term),
    Theory(TheoryAtom),
    Choice(Choice),
}

/// A choice with the bounds on its count. The left bound is read from the left, so its relation says
/// how the bound stands to the count.
#[derive(Drop)]
pub struct Choice {
    pub left: Option<Guard>,
    pub elements: Listed<ChoiceElement>,
    pub right: Option<Guard>,
}

/// An atom that may be chosen where its condition holds.
#[derive(Drop)]
pub struct ChoiceElement {
    pub atom: Term,
    pub condition: Listed<Literal>,
}

/// The name of a variable.
#[derive(Drop)]
pub struct Name {
    pub text: Listed<u8>,
}

/// A rule. `is_rule` of `specs/Statements.antt` has the rules on rules.
#[derive(Drop)]
pub struct Rule {
    pub head: Head,
    pub body: Listed<Literal>,
    /// Whether `:-` is written.
    pub arrow: bool,
    /// The named variables by number, from 1, in the order in which they first occur.
    pub names: Listed<Name>,
    /// Where the rule, each occurrence of a variable, each `_`, each interval that is an argument, and
    /// each atom begin, in bytes from 0 and in the text's order, an interval before what is inside it.
    pub places: Listed<usize>,
}
