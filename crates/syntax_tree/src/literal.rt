// Literals and theory atoms as they are written.
use crate::term::Term;
use sqlite_items::Items;
use symbols::{Listed, Rel};

/// The theory atoms by name.
#[derive(Clone, Copy, Debug, PartialEq, Eq)]
pub enum TheoryName {
    Sum,
    Diff,
    Distinct,
    Disjoint,
    Dom,
    Minimize,
    Maximize,
    Show,
    /// A name that no theory atom has.
    Unknown,
}

/// What stands to the right of a theory atom, or to one side of a choice.
#[derive(Drop)]
pub struct Guard {
    pub rel: Rel,
    pub right: Term,
}

/// A literal; with `true` it stands as it is, with `false` behind `not`. `is_literal` of
/// `specs/Literals.antt` has the rules on literals.
#[cycle(literal)]
#[derive(Drop)]
pub enum Literal {
    Atom(Term, bool),
    Compare(Term, Rel, Term),
    Theory(TheoryAtom, bool),
}

/// A theory atom.
#[cycle(literal)]
#[derive(Drop)]
pub struct TheoryAtom {
    pub name: TheoryName,
    pub elements: Items<TheoryElement>,
    pub guard: Option<Guard>,
}

/// An element of a theory atom: its first place, the duration behind that place in `&disjoint`, its
/// further places, and its condition.
#[cycle(literal)]
#[derive(Drop)]
pub struct TheoryElement {
    pub first: Term,
    pub duration: Option<Term>,
    pub rest: Listed<Term>,
    pub condition: Items<Literal>,
}
