// Linear terms and tuples in collected form.
use symbols::{Listed, SymbolId};

/// Integer variables with their coefficients, each variable once and in the order of symbols, and a constant.
///
/// A coefficient may be 0: a variable whose coefficients cancel stays.
#[derive(Debug, PartialEq, Eq, Drop)]
pub struct SymbolLinear {
    pub pairs: Listed<(SymbolId, i64)>,
    pub constant: i64,
}

/// A tuple: its first place, its duration (0 where none is written), and its further places.
#[derive(Debug, PartialEq, Eq, Drop)]
pub struct CollectedPlace {
    pub linear: SymbolLinear,
    pub duration: i32,
    pub rest: Listed<SymbolId>,
}

/// The different tuples of a theory atom in order, and how many instances of its elements give them.
///
/// Two instances that give one tuple are two in the ground count.
#[derive(Debug, PartialEq, Eq, Drop)]
pub struct CollectedTuples {
    pub places: Listed<CollectedPlace>,
    pub instances: usize,
}
