// Theory atoms with their conditions in order.
ghost use Rattle.std.specs.Prelude.{map, IfOk};
ghost use Rattle.std.specs.List.{AllByRecursion, AllZip};
ghost use Rattle.program_meaning.specs.Read.{ReadRule, literal_read, theory_read};
ghost use Rattle.safety_meaning.specs.Ordered.{IsOrderedElement, IsOrderedTheory};
ghost use Rattle.rule_variables.specs.Reading.{element_read};
ghost use Rattle.ordered_bodies.specs.inner.Orderable.{IsOrderable};
ghost use Rattle.ordered_bodies.specs.inner.Parts.{AreOrderable, AreOrderableIn, AreGlobal, IsOrderedLiteral};

use crate::ordering::ordered;
use sqlite_items::Items;
use std::alloc::Global;
use symbols::{Listed, Memory};
use syntax_tree::{Literal, TheoryAtom, TheoryElement};

// An element with its condition in order.
fn ordered_element(
    alloc: Global,
    element: TheoryElement,
    order: &[u32],
    given: &[u32],
) -> Result<TheoryElement, Memory>
    requires { IsOrderable order.now given.now (element_read element).condition }
    ensures { IfOk result (λ done. (rule : ReadRule) → AreGlobal rule order.now given.now → IsOrderedElement rule (element_read element) (element_read done)) }
{
    let TheoryElement {
        first,
        duration,
        rest,
        condition,
    } = element;
    let condition = ordered(alloc, condition, order, given)?;
    Ok(TheoryElement {
        first,
        duration,
        rest,
        condition: Items::from_vec(condition.into_vec()),
    })
}

// Elements with their conditions in order.
fn ordered_elements(
    alloc: Global,
    mut left: Items<TheoryElement>,
    order: &[u32],
    given: &[u32],
) -> Result<Items<TheoryElement>, Memory>
    requires { AreOrderable order.now given.now (map element_read left) }
    ensures { IfOk result (λ done. (rule : ReadRule) → AreGlobal rule order.now given.now → AllZip (IsOrderedElement rule) (map element_read left) (map element_read done)) }
{
    let mut done = Listed::new(alloc);
    while let Some(element) = left.pop() {
        let element = ordered_element(alloc, element, order, given)?;
        done.push(element)?;
    }
    done.reverse();
    Ok(Items::from_vec(done.into_vec()))
}

// A theory atom with its conditions in order.
pub(crate) fn ordered_theory(
    alloc: Global,
    theory: TheoryAtom,
    order: &[u32],
    given: &[u32],
) -> Result<TheoryAtom, Memory>
    requires { AreOrderable order.now given.now (theory_read theory).elements }
    ensures { IfOk result (λ done. (rule : ReadRule) → AreGlobal rule order.now given.now → IsOrderedTheory rule (theory_read theory) (theory_read done)) }
{
    let TheoryAtom {
        name,
        elements,
        guard,
    } = theory;
    let elements = ordered_elements(alloc, elements, order, given)?;
    Ok(TheoryAtom {
        name,
        elements,
        guard,
    })
}

// A literal with its conditions in order.
fn ordered_literal(
    alloc: Global,
    literal: Literal,
    order: &[u32],
    given: &[u32],
) -> Result<Literal, Memory>
    requires { AreOrderableIn order.now given.now (literal_read literal) }
    ensures { IfOk result (λ done. (rule : ReadRule) → AreGlobal rule order.now given.now → IsOrderedLiteral rule (literal_read literal) (literal_read done)) }
{
    match literal {
        Literal::Atom(atom, sign) => Ok(Literal::Atom(atom, sign)),
        Literal::Compare(left, rel, right) => Ok(Literal::Compare(left, rel, right)),
        Literal::Theory(theory, sign) => {
            let theory = ordered_theory(alloc, theory, order, given)?;
            Ok(Literal::Theory(theory, sign))
        }
    }
}

// Literals with their conditions in order.
pub(crate) fn ordered_literals(
    alloc: Global,
    mut left: Listed<Literal>,
    order: &[u32],
    given: &[u32],
) -> Result<Listed<Literal>, Memory>
    requires { AllByRecursion (AreOrderableIn order.now given.now) (map literal_read left) }
    ensures { IfOk result (λ done. (rule : ReadRule) → AreGlobal rule order.now given.now → AllZip (IsOrderedLiteral rule) (map literal_read left) (map literal_read done)) }
{
    let mut done = Listed::new(alloc);
    while let Some(literal) = left.pop() {
        let literal = ordered_literal(alloc, literal, order, given)?;
        done.push(literal)?;
    }
    done.reverse();
    Ok(done)
}
