// Rules with no variables but the integer variables.
use crate::int_set::IntSet;
use crate::linear::{Place, Relation};
use symbols::{Listed, Rel};

/// A literal of a body: an atom by its number, counted from 1, or a relation; `false` stands for `not`.
#[derive(Debug, PartialEq, Eq, Drop)]
pub enum BodyLit {
    Atom(u32, bool),
    Theory(Relation, bool),
}

/// A theory atom as a head: it has to hold where the rule's body does.
#[derive(Debug, PartialEq, Eq, Drop)]
pub enum TheoryHead {
    /// `&sum` or `&diff`.
    Relation(Relation),
    /// `&dom`: the numbers that a variable may have.
    Domain(IntSet, u32),
    /// `&distinct`: the first places of different tuples differ.
    Distinct(Listed<Place>),
    /// `&disjoint`: the spans of different tuples share no integer.
    Disjoint(Listed<Place>),
}

/// A bound on the number of different atoms that a choice takes: the count stands in the relation to the value.
#[derive(Clone, Copy, Debug, PartialEq, Eq)]
pub struct Bound {
    pub rel: Rel,
    pub value: i32,
}

/// An atom that a choice may take, where its condition holds.
#[derive(Debug, PartialEq, Eq, Drop)]
pub struct ChoiceItem {
    pub atom: u32,
    pub condition: Listed<BodyLit>,
}

/// A choice among atoms, with bounds on how many different ones are taken.
#[derive(Debug, PartialEq, Eq, Drop)]
pub struct GroundChoice {
    pub items: Listed<ChoiceItem>,
    pub left: Option<Bound>,
    pub right: Option<Bound>,
}

/// The head of a rule; `Nothing` is that of an integrity constraint.
#[derive(Debug, PartialEq, Eq, Drop)]
pub enum GroundHead {
    Nothing,
    Atom(u32),
    Theory(TheoryHead),
    Choice(GroundChoice),
}

/// A rule: its head where its whole body is true.
#[derive(Debug, PartialEq, Eq, Drop)]
pub struct GroundRule {
    pub body: Listed<BodyLit>,
    pub head: GroundHead,
}
