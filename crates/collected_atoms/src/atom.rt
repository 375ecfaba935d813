// Theory atoms in collected form.
use ground_model::IntSet;
use program_meaning::{CollectedPlace, SymbolLinear};
use symbols::{Listed, Rel};

/// By what a theory atom has no collected form, from the first cause on.
#[derive(Clone, Copy, Debug, PartialEq, Eq)]
pub enum OutsideCause {
    Overflow,
    NotLinear,
    TooManyElements,
    TooLarge,
}

/// Why there is no collected form.
#[derive(Clone, Copy, Debug, PartialEq, Eq)]
pub enum AtomStop {
    Outside(OutsideCause),
    Memory,
}

/// A guard with its right side in collected form.
#[derive(Debug, Drop)]
pub struct CollectedGuard {
    pub rel: Rel,
    pub right: SymbolLinear,
}

/// A theory atom in collected form.
#[derive(Debug, Drop)]
pub struct CollectedAtom {
    /// Its different tuples in order; none of `&dom`.
    pub places: Listed<CollectedPlace>,
    /// The integers of `&dom`; none of any other.
    pub numbers: IntSet,
    pub guard: Option<CollectedGuard>,
}
