// What reaches a predicate.
use crate::predicate::Predicate;
use symbols::Listed;

/// A predicate that is reached at once, where it says so, and from each of others.
#[derive(Debug, Drop)]
pub struct Reads {
    pub head: Predicate,
    pub at_once: bool,
    pub others: Listed<Predicate>,
}
