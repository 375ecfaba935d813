// Literals that their constants leave as they are.
ghost use Rattle.std.specs.Prelude.{◌≡◌, map, IsTrue};
ghost use Rattle.std.specs.Option.{option_map};
ghost use Rattle.asp_parser.specs.Replacement as spec;

use crate::constant_table::ConstantTable;
use crate::kept_terms::{are_kept, is_atom_kept, is_kept, is_option_kept};
use syntax_tree::{Guard, Literal, TheoryAtom, TheoryElement};

// Whether no constant stands in a guard that may be there.
pub(crate) fn is_guard_kept(guard: &Option<Guard>, constants: &ConstantTable) -> bool
    ensures { IsTrue result → option_map (spec.replaced_guard constants.now) guard.now ≡ guard.now }
{
    match guard {
        Some(guard) => is_kept(&guard.right, constants),
        None => true,
    }
}

// Whether no constant stands in a literal.
#[cycle(kept_literals)]
fn is_literal_kept(literal: &Literal, constants: &ConstantTable) -> bool
    ensures { IsTrue result → spec.replaced_literal constants.now literal.now ≡ literal.now }
{
    match literal {
        Literal::Atom(atom, _) => is_atom_kept(atom, constants),
        Literal::Compare(left, _, right) => {
            let left = is_kept(left, constants);
            let right = is_kept(right, constants);
            left && right
        }
        Literal::Theory(atom, _) => is_theory_kept(atom, constants),
    }
}

// Whether no constant stands in a theory atom.
#[cycle(kept_literals)]
pub(crate) fn is_theory_kept(atom: &TheoryAtom, constants: &ConstantTable) -> bool
    ensures { IsTrue result → spec.replaced_theory constants.now atom.now ≡ atom.now }
{
    let elements = are_elements_kept(atom.elements.as_slice(), constants);
    let guard = is_guard_kept(&atom.guard, constants);
    elements && guard
}

#[cycle(kept_literals)]
fn are_elements_kept(elements: &[TheoryElement], constants: &ConstantTable) -> bool
    ensures { IsTrue result → map (spec.replaced_element constants.now) elements.now ≡ elements.now }
{
    for element in elements {
        if !is_element_kept(element, constants) {
            return false;
        }
    }
    true
}

#[cycle(kept_literals)]
fn is_element_kept(element: &TheoryElement, constants: &ConstantTable) -> bool
    ensures { IsTrue result → spec.replaced_element constants.now element.now ≡ element.now }
{
    let first = is_kept(&element.first, constants);
    let duration = is_option_kept(&element.duration, constants);
    let rest = are_kept(element.rest.items(), constants);
    let condition = are_literals_kept(element.condition.as_slice(), constants);
    first && duration && rest && condition
}

// Whether no constant stands in literals.
#[cycle(kept_literals)]
pub(crate) fn are_literals_kept(literals: &[Literal], constants: &ConstantTable) -> bool
    ensures { IsTrue result → map (spec.replaced_literal constants.now) literals.now ≡ literals.now }
{
    for literal in literals {
        if !is_literal_kept(literal, constants) {
            return false;
        }
    }
    true
}
