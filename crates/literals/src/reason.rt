// Why a nogood holds.
use crate::nogood::Nogood;
use symbols::Listed;

/// The rule by which a nogood holds in every world that an answer may be.
#[derive(Debug, Drop)]
pub enum Step {
    /// The least or the greatest sum of the constraint is beyond its bound; 0 is the objective.
    Sum(u32),
    /// More places of the distinct constraint lie within the two numbers than there are numbers.
    Distinct(u32, i64, i64),
    /// More work of the disjoint constraint lies within the two times than fits between them.
    Window(u32, i64, i64),
    /// Neither of the two places of the disjoint constraint can come first.
    Pair(u32, u32, u32),
    /// The atoms are supported only by each other. Their numbers ascend.
    Loop(Listed<u32>),
    /// No number is left for the variable of the domain constraint; 0 stands for the ends.
    Hole(u32),
}

/// A nogood with the rule by which it holds.
#[derive(Debug, Drop)]
pub struct Reason {
    pub nogood: Nogood,
    pub step: Step,
}
