// What rules fail by.

/// What a rule fails by: a variable, by its place in the rule's order; an atom, by its place among those in the
/// conditions of the rule's theory atoms, in the order of the text; or recursion. Places count from 0.
#[derive(Clone, Copy, Debug)]
pub enum Failure {
    UnsafeVariable(usize),
    NoDomainAtom(usize),
    RecursiveRule,
}

/// A rule that fails, by its place among the rules of all statements, from 0, and what it fails by.
#[derive(Clone, Copy, Debug)]
pub struct FirstFailure {
    pub rule: usize,
    pub failure: Failure,
}

// A statement that was judged: the place of the next rule, or a failure.
#[derive(Clone, Copy, Debug)]
pub(crate) enum Step {
    Next(usize),
    Failed(FirstFailure),
}
