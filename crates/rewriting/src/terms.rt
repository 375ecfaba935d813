// Terms rewritten.
ghost use Rattle.std.specs.Prelude.{◌≡◌, ◌+◌, map, IfOk};
ghost use Rattle.symbols.specs.declared.rel.Rel.TheVariants.{Equal};
ghost use Rattle.syntax_tree.specs.declared.term.Term.TheVariants.{Variable};
ghost use Rattle.syntax_tree.specs.declared.literal.Literal.TheVariants.{Compare};
ghost use Rattle.rewriting.specs.Made.{each, maybe};
ghost use Rattle.rewriting.specs.Rewritten as spec;
ghost use Rattle.rewriting.specs.inner.Becoming.{Becomes};

use crate::sight::Sight;
use crate::walk::Walk;
use sqlite_items::{Boxed, Items};
use std::alloc::Global;
use symbols::{Listed, Memory, Rel};
use syntax_tree::{Literal, Part, Term};

// A term that is no argument, rewritten.
#[cycle(in_terms)]
pub(crate) fn term(
    alloc: Global,
    old: &Term,
    walk: &mut Walk,
    added: &mut Listed<Literal>,
) -> Result<Term, Memory>
    ensures { IfOk result (Becomes (spec.term_made old.now walk.old.next) walk.old walk.new added.old added.new) }
{
    match old {
        Term::Number(n) => Ok(Term::Number(*n)),
        Term::Text(text) => Ok(Term::Text(Listed::from_slice(alloc, text.items())?)),
        Term::Variable(number) => {
            walk.see(Sight::Variable(*number))?;
            Ok(Term::Variable(*number))
        }
        Term::Anonymous => {
            let number = walk.take()?;
            walk.see(Sight::Anonymous(number))?;
            Ok(Term::Variable(number))
        }
        Term::Function(name, args) => {
            let args = arguments(alloc, args.as_slice(), walk, added)?;
            Ok(Term::Function(Listed::from_slice(alloc, name.items())?, args))
        }
        Term::Tuple(args) => Ok(Term::Tuple(arguments(alloc, args.as_slice(), walk, added)?)),
        Term::Sum(parts) => Ok(Term::Sum(parts_of(alloc, parts.as_slice(), walk, added)?)),
        Term::Product(parts) => Ok(Term::Product(parts_of(alloc, parts.as_slice(), walk, added)?)),
        Term::Minus(inner) => Ok(Term::Minus(boxed(alloc, inner.get(), walk, added)?)),
        Term::Interval(low, high) => {
            let low = boxed(alloc, low.get(), walk, added)?;
            let high = boxed(alloc, high.get(), walk, added)?;
            Ok(Term::Interval(low, high))
        }
    }
}

// The variable for an interval, whose comparison stands before those of what is inside the interval.
#[cycle(in_terms)]
fn interval_variable(
    alloc: Global,
    old: &Term,
    walk: &mut Walk,
    added: &mut Listed<Literal>,
) -> Result<Term, Memory>
    ensures { IfOk result (Becomes (spec.for_interval walk.old.next (spec.term_made old.now (walk.old.next + 1))) walk.old walk.new added.old added.new) }
{
    let number = walk.take()?;
    walk.see(Sight::Interval(number))?;
    let place = added.len();
    added.push(equation(number, Term::Anonymous))?;
    let interval = term(alloc, old, walk, added)?;
    added.set(place, equation(number, interval));
    Ok(Term::Variable(number))
}

// The comparison of a variable with a term by `=`.
fn equation(number: u32, right: Term) -> Literal
    ensures { result ≡ Compare (Variable number) Equal right }
{
    Literal::Compare(Term::Variable(number), Rel::Equal, right)
}

// A term in a box.
#[cycle(in_terms)]
fn boxed(
    alloc: Global,
    old: &Term,
    walk: &mut Walk,
    added: &mut Listed<Literal>,
) -> Result<Boxed<Term>, Memory>
    ensures { IfOk result (λ new. Becomes (spec.term_made old.now walk.old.next) walk.old walk.new added.old added.new new) }
{
    let new = term(alloc, old, walk, added)?;
    Ok(Boxed::new(alloc, new)?)
}

// An argument, rewritten.
#[cycle(in_terms)]
fn argument(
    alloc: Global,
    old: &Term,
    walk: &mut Walk,
    added: &mut Listed<Literal>,
) -> Result<Term, Memory>
    ensures { IfOk result (Becomes ((spec.ways old.now).argument walk.old.next) walk.old walk.new added.old added.new) }
{
    match old {
        Term::Interval(_, _) => interval_variable(alloc, old, walk, added),
        _ => term(alloc, old, walk, added),
    }
}

// Arguments, rewritten.
#[cycle(in_terms)]
fn arguments(
    alloc: Global,
    args: &[Term],
    walk: &mut Walk,
    added: &mut Listed<Literal>,
) -> Result<Items<Term>, Memory>
    ensures { IfOk result (λ new. Becomes (spec.arguments_way (map spec.ways args.now) walk.old.next) walk.old walk.new added.old added.new new) }
{
    let mut done = Items::new(alloc);
    for arg in args {
        done.push(argument(alloc, arg, walk, added)?)?;
    }
    Ok(done)
}

// The parts of a sum or a product, rewritten.
#[cycle(in_terms)]
fn parts_of(
    alloc: Global,
    parts: &[Part],
    walk: &mut Walk,
    added: &mut Listed<Literal>,
) -> Result<Items<Part>, Memory>
    ensures { IfOk result (λ new. Becomes (spec.parts_way (map spec.ways_in parts.now) walk.old.next) walk.old walk.new added.old added.new new) }
{
    let mut done = Items::new(alloc);
    for one in parts {
        done.push(part_of(alloc, one, walk, added)?)?;
    }
    Ok(done)
}

// A part of a sum or a product, rewritten.
#[cycle(in_terms)]
fn part_of(
    alloc: Global,
    old: &Part,
    walk: &mut Walk,
    added: &mut Listed<Literal>,
) -> Result<Part, Memory>
    ensures { IfOk result (Becomes (spec.part_way (spec.ways_in old.now) walk.old.next) walk.old walk.new added.old added.new) }
{
    let term = term(alloc, &old.term, walk, added)?;
    Ok(Part { op: old.op, term })
}

// Terms in a list, rewritten.
pub(crate) fn terms(
    alloc: Global,
    old: &[Term],
    walk: &mut Walk,
    added: &mut Listed<Literal>,
) -> Result<Listed<Term>, Memory>
    ensures { IfOk result (λ new. Becomes (each (map spec.term_made old.now) walk.old.next) walk.old walk.new added.old added.new new) }
{
    let mut done = Listed::new(alloc);
    for one in old {
        done.push(term(alloc, one, walk, added)?)?;
    }
    Ok(done)
}

// A term that may be there, rewritten.
pub(crate) fn optional(
    alloc: Global,
    old: &Option<Term>,
    walk: &mut Walk,
    added: &mut Listed<Literal>,
) -> Result<Option<Term>, Memory>
    ensures { IfOk result (Becomes (maybe spec.term_made old.now walk.old.next) walk.old walk.new added.old added.new) }
{
    match old {
        Some(one) => Ok(Some(term(alloc, one, walk, added)?)),
        None => Ok(None),
    }
}
