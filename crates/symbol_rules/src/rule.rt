// Ground rules over symbols.
use ground_model::{Bound, IntSet};
use program_meaning::{CollectedPlace, SymbolLinear};
use symbols::{Listed, Rel, SymbolId};

/// The sum of the first places of tuples, compared with the right side.
#[derive(Debug, PartialEq, Eq, Drop)]
pub struct SymbolRelation {
    pub elements: Listed<CollectedPlace>,
    pub rel: Rel,
    pub right: SymbolLinear,
}

/// A theory atom as a head.
#[derive(Debug, PartialEq, Eq, Drop)]
pub enum SymbolTheory {
    /// `&sum` or `&diff`.
    Relation(SymbolRelation),
    /// `&dom`: the numbers that a variable may have.
    Domain(IntSet, SymbolId),
    /// `&distinct`.
    Distinct(Listed<CollectedPlace>),
    /// `&disjoint`.
    Disjoint(Listed<CollectedPlace>),
}

/// An atom that a choice may take, and the atoms of its condition, `false` for one behind `not`.
#[derive(Debug, PartialEq, Eq, Drop)]
pub struct SymbolItem {
    pub atom: SymbolId,
    pub condition: Listed<(SymbolId, bool)>,
}

/// A choice among atoms, with bounds on how many different ones are taken.
#[derive(Debug, PartialEq, Eq, Drop)]
pub struct SymbolChoice {
    pub items: Listed<SymbolItem>,
    pub left: Option<Bound>,
    pub right: Option<Bound>,
}

/// The head of a rule; `Nothing` is that of an integrity constraint.
#[derive(Debug, PartialEq, Eq, Drop)]
pub enum SymbolHead {
    Nothing,
    Atom(SymbolId),
    Theory(SymbolTheory),
    Choice(SymbolChoice),
}

/// A rule: the atoms of its body, its relations, and its head. `false` stands for `not`.
#[derive(Debug, PartialEq, Eq, Drop)]
pub struct SymbolRule {
    pub atoms: Listed<(SymbolId, bool)>,
    pub told: Listed<(SymbolRelation, bool)>,
    pub head: SymbolHead,
}
