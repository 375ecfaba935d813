// Constraints in normal form.
use ground_model::{IntSet, Place};
use symbols::Listed;

/// One term of a sum: what counts, by its number, and its coefficient.
#[derive(Clone, Copy, Debug, PartialEq, Eq, Hash)]
pub enum Item {
    /// The value of a variable.
    Value(u32, i64),
    /// The truth of a constraint, which counts 1 where it is true and 0 where it is false.
    Truth(u32, i64),
}

/// What a constraint says. Parts and bodies are named by their numbers, counted from 1.
#[derive(Debug, PartialEq, Eq, Hash, Drop)]
pub enum Constraint {
    /// The sum is at most the number. Variables stand in order, and no coefficient of one is 0.
    AtMost(Listed<Item>, i64),
    /// Both constraints are true.
    Both(u32, u32),
    /// At least one of the two constraints is true.
    Either(u32, u32),
    /// The variable has one of the numbers.
    Domain(u32, IntSet),
    /// The first places of different tuples differ.
    Distinct(Listed<Place>),
    /// The spans of different tuples share no integer.
    Disjoint(Listed<Place>),
    /// At least one of the bodies is true.
    Tally(Listed<u32>),
}
