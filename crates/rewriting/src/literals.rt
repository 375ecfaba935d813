// Literals and theory atoms rewritten.
ghost use Rattle.std.specs.Prelude.{◌≡◌, [], map, IfOk};
ghost use Rattle.syntax_tree.specs.declared.literal.Literal.TheVariants.{Compare};
ghost use Rattle.rewriting.specs.Made.{both, each, maybe};
ghost use Rattle.rewriting.specs.Rewritten as spec;
ghost use Rattle.rewriting.specs.inner.Becoming.{Becomes};

use crate::sight::Sight;
use crate::terms::{optional, term, terms};
use crate::walk::Walk;
use sqlite_items::Items;
use std::alloc::Global;
use symbols::{Listed, Memory, Rel};
use syntax_tree::{Guard, Literal, Term, TheoryAtom, TheoryElement};

// A guard that may be there, rewritten.
pub(crate) fn guard(
    alloc: Global,
    old: &Option<Guard>,
    walk: &mut Walk,
    added: &mut Listed<Literal>,
) -> Result<Option<Guard>, Memory>
    ensures { IfOk result (Becomes (maybe spec.guard_made old.now walk.old.next) walk.old walk.new added.old added.new) }
{
    match old {
        Some(guard) => {
            let right = term(alloc, &guard.right, walk, added)?;
            Ok(Some(Guard {
                rel: guard.rel,
                right,
            }))
        }
        None => Ok(None),
    }
}

// An atom, rewritten.
pub(crate) fn atom(
    alloc: Global,
    old: &Term,
    walk: &mut Walk,
    added: &mut Listed<Literal>,
) -> Result<Term, Memory>
    ensures { IfOk result (Becomes (spec.atom_made old.now walk.old.next) walk.old walk.new added.old added.new) }
{
    walk.see(Sight::Atom)?;
    let new = term(alloc, old, walk, added)?;
    Ok(new)
}

// A literal, rewritten.
#[cycle(in_literals)]
pub(crate) fn literal(
    alloc: Global,
    old: &Literal,
    walk: &mut Walk,
    added: &mut Listed<Literal>,
) -> Result<Literal, Memory>
    ensures { IfOk result (Becomes (spec.literal_made old.now walk.old.next) walk.old walk.new added.old added.new) }
{
    match old {
        Literal::Atom(old, sign) => Ok(Literal::Atom(atom(alloc, old, walk, added)?, *sign)),
        Literal::Compare(left, rel, right) => comparison(alloc, left, *rel, right, walk, added),
        Literal::Theory(old, sign) => Ok(Literal::Theory(theory(alloc, old, walk, added)?, *sign)),
    }
}

// A comparison, rewritten.
fn comparison(
    alloc: Global,
    left: &Term,
    rel: Rel,
    right: &Term,
    walk: &mut Walk,
    added: &mut Listed<Literal>,
) -> Result<Literal, Memory>
    ensures { IfOk result (Becomes (both (λ a b. Compare a rel b) (spec.term_made left.now) (spec.term_made right.now) walk.old.next) walk.old walk.new added.old added.new) }
{
    let left = term(alloc, left, walk, added)?;
    let right = term(alloc, right, walk, added)?;
    Ok(Literal::Compare(left, rel, right))
}

// A theory atom, rewritten.
#[cycle(in_literals)]
pub(crate) fn theory(
    alloc: Global,
    old: &TheoryAtom,
    walk: &mut Walk,
    added: &mut Listed<Literal>,
) -> Result<TheoryAtom, Memory>
    ensures { IfOk result (Becomes (spec.theory_made old.now walk.old.next) walk.old walk.new added.old added.new) }
{
    let elements = elements(alloc, old.elements.as_slice(), walk)?;
    let guard = guard(alloc, &old.guard, walk, added)?;
    Ok(TheoryAtom {
        name: old.name,
        elements,
        guard,
    })
}

#[cycle(in_literals)]
fn elements(
    alloc: Global,
    old: &[TheoryElement],
    walk: &mut Walk,
) -> Result<Items<TheoryElement>, Memory>
    ensures { IfOk result (λ new. Becomes (each (map spec.element_made old.now) walk.old.next) walk.old walk.new [] [] new) }
{
    let mut done = Items::new(alloc);
    for one in old {
        done.push(element(alloc, one, walk)?)?;
    }
    Ok(done)
}

// An element of a theory atom, with what comes with it behind its condition.
#[cycle(in_literals)]
fn element(alloc: Global, old: &TheoryElement, walk: &mut Walk) -> Result<TheoryElement, Memory>
    ensures { IfOk result (Becomes (spec.element_made old.now walk.old.next) walk.old walk.new [] []) }
{
    let mut added = Listed::new(alloc);
    let first = term(alloc, &old.first, walk, &mut added)?;
    let duration = optional(alloc, &old.duration, walk, &mut added)?;
    let rest = terms(alloc, old.rest.items(), walk, &mut added)?;
    let mut condition = condition(alloc, old.condition.as_slice(), walk, &mut added)?;
    condition.append(Items::from_vec(added.into_vec()))?;
    Ok(TheoryElement {
        first,
        duration,
        rest,
        condition,
    })
}

// The condition of an element of a theory atom, without what comes with it.
#[cycle(in_literals)]
fn condition(
    alloc: Global,
    old: &[Literal],
    walk: &mut Walk,
    added: &mut Listed<Literal>,
) -> Result<Items<Literal>, Memory>
    ensures { IfOk result (λ new. Becomes (each (map spec.literal_made old.now) walk.old.next) walk.old walk.new added.old added.new new) }
{
    let mut done = Items::new(alloc);
    for one in old {
        done.push(literal(alloc, one, walk, added)?)?;
    }
    Ok(done)
}

// Literals in a list, rewritten.
pub(crate) fn literals(
    alloc: Global,
    old: &[Literal],
    walk: &mut Walk,
    added: &mut Listed<Literal>,
) -> Result<Listed<Literal>, Memory>
    ensures { IfOk result (λ new. Becomes (each (map spec.literal_made old.now) walk.old.next) walk.old walk.new added.old added.new new) }
{
    let mut done = Listed::new(alloc);
    for one in old {
        done.push(literal(alloc, one, walk, added)?)?;
    }
    Ok(done)
}
