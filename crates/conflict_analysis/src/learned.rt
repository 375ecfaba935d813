// What is learned from a conflict.
use literals::{Lit, Nogood, Reason};
use symbols::Listed;

/// A nogood with the reason that it holds.
#[derive(Debug, Drop)]
pub enum Start {
    /// The nogood that the store holds under this id.
    Held(u64),
    Shown(Reason),
}

/// A resolution at the pivot: of the nogood so far, which has the pivot, with another.
#[derive(Debug, Drop)]
pub struct Link {
    pub pivot: Lit,
    pub used: Start,
}

/// A nogood, with the chain of resolutions that gives it.
#[derive(Debug, Drop)]
pub struct Learned {
    pub nogood: Nogood,
    pub first: Start,
    pub chain: Listed<Link>,
    /// The highest level but one of its literals, 0 where there is none.
    pub level: usize,
}
