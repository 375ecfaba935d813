// Answers.
use symbols::Listed;

/// A set of atoms by their numbers, ascending, and one value for each integer variable, in order.
#[derive(Debug, PartialEq, Eq, Drop)]
pub struct Answer {
    pub atoms: Listed<u32>,
    pub values: Listed<i32>,
}
