// Linear terms, the tuples of theory atoms, and relations between sums.
use symbols::{Listed, Rel, SymbolId};

/// A sum of integer variables with coefficients, and a constant.
///
/// A pair is a variable's number, counted from 1, and its coefficient, which may be 0.
#[derive(Debug, PartialEq, Eq, Hash, Drop)]
pub struct Linear {
    pub pairs: Listed<(u32, i64)>,
    pub constant: i64,
}

/// One tuple of a theory atom: its first place, its duration (0 unless the atom is `&disjoint`), and its
/// further places.
#[derive(Debug, PartialEq, Eq, Hash, Drop)]
pub struct Place {
    pub linear: Linear,
    pub duration: i32,
    pub rest: Listed<SymbolId>,
}

/// `&sum` or `&diff`: the sum of the first places of different tuples, compared with the right side.
#[derive(Debug, PartialEq, Eq, Hash, Drop)]
pub struct Relation {
    pub elements: Listed<Place>,
    pub rel: Rel,
    pub right: Linear,
}
