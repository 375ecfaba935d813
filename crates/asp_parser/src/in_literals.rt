// Literals and theory atoms with their constants replaced.
ghost use Rattle.std.specs.Prelude.{◌≡◌, map, IfOk};
ghost use Rattle.std.specs.Option.{option_map};
ghost use Rattle.syntax_tree.specs.declared.literal.Literal.TheVariants.{Compare};
ghost use Rattle.asp_parser.specs.Replacement as spec;

use crate::constant_table::ConstantTable;
use crate::in_terms::{replaced, replaced_all, replaced_atom, replaced_option};
use sqlite_items::Items;
use std::alloc::Global;
use symbols::{Listed, Memory, Rel};
use syntax_tree::{Guard, Literal, Term, TheoryAtom, TheoryElement};

// A guard that may be there, with its constants replaced.
pub(crate) fn replaced_guard(
    alloc: Global,
    guard: &Option<Guard>,
    constants: &ConstantTable,
) -> Result<Option<Guard>, Memory>
    ensures { IfOk result (λ new. new ≡ option_map (spec.replaced_guard constants.now) guard.now) }
{
    match guard {
        Some(guard) => {
            let right = replaced(alloc, &guard.right, constants)?;
            Ok(Some(Guard {
                rel: guard.rel,
                right,
            }))
        }
        None => Ok(None),
    }
}

// A literal with its constants replaced.
#[cycle(in_literals)]
pub(crate) fn replaced_literal(
    alloc: Global,
    literal: &Literal,
    constants: &ConstantTable,
) -> Result<Literal, Memory>
    ensures { IfOk result (λ new. new ≡ spec.replaced_literal constants.now literal.now) }
{
    match literal {
        Literal::Atom(atom, sign) => {
            Ok(Literal::Atom(replaced_atom(alloc, atom, constants)?, *sign))
        }
        Literal::Compare(left, rel, right) => comparison(alloc, left, *rel, right, constants),
        Literal::Theory(atom, sign) => Ok(Literal::Theory(
            replaced_theory(alloc, atom, constants)?,
            *sign,
        )),
    }
}

// A comparison with its constants replaced.
fn comparison(
    alloc: Global,
    left: &Term,
    rel: Rel,
    right: &Term,
    constants: &ConstantTable,
) -> Result<Literal, Memory>
    ensures { IfOk result (λ new. new ≡ Compare (spec.replaced constants.now left.now) rel (spec.replaced constants.now right.now)) }
{
    let left = replaced(alloc, left, constants)?;
    let right = replaced(alloc, right, constants)?;
    Ok(Literal::Compare(left, rel, right))
}

// A theory atom with its constants replaced.
#[cycle(in_literals)]
pub(crate) fn replaced_theory(
    alloc: Global,
    atom: &TheoryAtom,
    constants: &ConstantTable,
) -> Result<TheoryAtom, Memory>
    ensures { IfOk result (λ new. new ≡ spec.replaced_theory constants.now atom.now) }
{
    let elements = replaced_elements(alloc, atom.elements.as_slice(), constants)?;
    let guard = replaced_guard(alloc, &atom.guard, constants)?;
    Ok(TheoryAtom {
        name: atom.name,
        elements,
        guard,
    })
}

#[cycle(in_literals)]
fn replaced_elements(
    alloc: Global,
    elements: &[TheoryElement],
    constants: &ConstantTable,
) -> Result<Items<TheoryElement>, Memory>
    ensures { IfOk result (λ new. new ≡ map (spec.replaced_element constants.now) elements.now) }
{
    let mut done = Items::new(alloc);
    for element in elements {
        done.push(replaced_element(alloc, element, constants)?)?;
    }
    Ok(done)
}

#[cycle(in_literals)]
fn replaced_element(
    alloc: Global,
    element: &TheoryElement,
    constants: &ConstantTable,
) -> Result<TheoryElement, Memory>
    ensures { IfOk result (λ new. new ≡ spec.replaced_element constants.now element.now) }
{
    let first = replaced(alloc, &element.first, constants)?;
    let duration = replaced_option(alloc, &element.duration, constants)?;
    let rest = replaced_all(alloc, element.rest.items(), constants)?;
    let condition = replaced_condition(alloc, element.condition.as_slice(), constants)?;
    Ok(TheoryElement {
        first,
        duration,
        rest,
        condition,
    })
}

// The condition of an element of a theory atom.
#[cycle(in_literals)]
fn replaced_condition(
    alloc: Global,
    literals: &[Literal],
    constants: &ConstantTable,
) -> Result<Items<Literal>, Memory>
    ensures { IfOk result (λ new. new ≡ map (spec.replaced_literal constants.now) literals.now) }
{
    let mut done = Items::new(alloc);
    for literal in literals {
        done.push(replaced_literal(alloc, literal, constants)?)?;
    }
    Ok(done)
}

// Literals in a list with their constants replaced.
pub(crate) fn replaced_literals(
    alloc: Global,
    literals: &[Literal],
    constants: &ConstantTable,
) -> Result<Listed<Literal>, Memory>
    ensures { IfOk result (λ new. new ≡ map (spec.replaced_literal constants.now) literals.now) }
{
    let mut done = Listed::new(alloc);
    for literal in literals {
        done.push(replaced_literal(alloc, literal, constants)?)?;
    }
    Ok(done)
}
