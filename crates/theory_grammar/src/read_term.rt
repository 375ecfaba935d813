// A term that was read.
ghost use Rattle.std.specs.Prelude.{◌≡◌, ◌∷◌, IfOk, IfErr};
ghost use Rattle.grammar.specs.declared.shape.Shape.TheVariants as shape;
ghost use Rattle.grammar.specs.Shape.{grouped as grouped_by};
ghost use Rattle.syntax_tree.specs.declared.term.Term.TheVariants as t;
ghost use Rattle.theory_grammar.specs.declared.fault.Stop.TheVariants as stop;

use crate::fault::Stop;
use grammar::Shape;
use sqlite_items::{Boxed, Items};
use std::alloc::Global;
use syntax_tree::Term;

/// A term that was read.
#[derive(Drop)]
pub struct ReadTerm {
    pub term: Term,
    /// What it is as a whole.
    pub shape: Shape,
    /// The place behind it, by the number of a word from 0.
    pub next: usize,
}

// A term that is neither an atom nor an interval.
pub(crate) fn other(term: Term, next: usize) -> ReadTerm
    ensures { result ≡ record { term = term; shape = shape.Other; next = next } }
{
    ReadTerm {
        term,
        shape: Shape::Other,
        next,
    }
}

// What a term in parentheses is.
pub(crate) fn grouped(shape: Shape) -> Shape
    ensures { result ≡ grouped_by shape }
{
    match shape {
        Shape::Interval => Shape::Interval,
        _ => Shape::Other,
    }
}

// The tuple of a place and more of them.
pub(crate) fn joined(
    alloc: Global,
    first: Term,
    more: Items<Term>,
    next: usize,
) -> Result<ReadTerm, Stop>
    ensures ok { IfOk result (λ r. r ≡ record { term = t.Tuple (first ∷ more); shape = shape.Other; next = next }) }
    ensures err { IfErr result (λ failed. failed ≡ stop.Memory) }
{
    let mut places = Items::new(alloc);
    if places.push(first).is_err() {
        return Err(Stop::Memory);
    }
    if places.append(more).is_err() {
        return Err(Stop::Memory);
    }
    Ok(other(Term::Tuple(places), next))
}

// The interval between two ends.
pub(crate) fn interval(
    alloc: Global,
    left: Term,
    right: Term,
    next: usize,
) -> Result<ReadTerm, Stop>
    ensures ok { IfOk result (λ r. r ≡ record { term = t.Interval left right; shape = shape.Interval; next = next }) }
    ensures err { IfErr result (λ failed. failed ≡ stop.Memory) }
{
    match (Boxed::new(alloc, left), Boxed::new(alloc, right)) {
        (Ok(left), Ok(right)) => Ok(ReadTerm {
            term: Term::Interval(left, right),
            shape: Shape::Interval,
            next,
        }),
        _ => Err(Stop::Memory),
    }
}
