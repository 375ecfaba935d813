// Programs by number.
use crate::constraint::Constraint;
use ground_model::Linear;
use literals::Lit;
use symbols::Listed;

/// A body: all of its literals, sorted and each once. They name atoms and constraints.
#[derive(Debug, Drop)]
pub struct Conjunction {
    pub lits: Listed<Lit>,
}

/// The body can give the atom.
#[derive(Clone, Copy, Debug, PartialEq, Eq)]
pub struct Support {
    pub atom: u32,
    pub body: u32,
}

/// Where the body is true the head has to be; `None` where there is no head.
#[derive(Clone, Copy, Debug, PartialEq, Eq)]
pub struct Duty {
    pub body: u32,
    pub head: Option<Lit>,
}

/// A ground program in normal form. A constraint or a body is named by its place, counted from 1.
///
/// Supports stand in the order of their bodies, and duties in the order of their rules. The objective is
/// one linear term, without the variables that cancel.
#[derive(Debug, Drop)]
pub struct Numbered {
    pub constraints: Listed<Constraint>,
    pub bodies: Listed<Conjunction>,
    pub supports: Listed<Support>,
    pub duties: Listed<Duty>,
    pub objective: Linear,
}
