// Rules that their constants leave as they are.
ghost use Rattle.std.specs.Prelude.{◌≡◌, map, IsTrue};
ghost use Rattle.asp_parser.specs.Replacement as spec;

use crate::constant_table::ConstantTable;
use crate::kept_literals::{are_literals_kept, is_guard_kept, is_theory_kept};
use crate::kept_terms::is_atom_kept;
use syntax_tree::{Choice, ChoiceElement, Head, Rule};

// Whether no constant stands in a rule.
pub(crate) fn is_rule_kept(rule: &Rule, constants: &ConstantTable) -> bool
    ensures { IsTrue result → spec.replaced_rule constants.now rule.now ≡ rule.now }
{
    let head = is_head_kept(&rule.head, constants);
    let body = are_literals_kept(rule.body.items(), constants);
    head && body
}

fn is_head_kept(head: &Head, constants: &ConstantTable) -> bool
    ensures { IsTrue result → spec.replaced_head constants.now head.now ≡ head.now }
{
    match head {
        Head::Nothing => true,
        Head::Atom(atom) => is_atom_kept(atom, constants),
        Head::Theory(atom) => is_theory_kept(atom, constants),
        Head::Choice(choice) => is_choice_kept(choice, constants),
    }
}

fn is_choice_kept(choice: &Choice, constants: &ConstantTable) -> bool
    ensures { IsTrue result → spec.replaced_choice constants.now choice.now ≡ choice.now }
{
    let left = is_guard_kept(&choice.left, constants);
    let elements = are_elements_kept(choice.elements.items(), constants);
    let right = is_guard_kept(&choice.right, constants);
    left && elements && right
}

fn are_elements_kept(elements: &[ChoiceElement], constants: &ConstantTable) -> bool
    ensures { IsTrue result → map (spec.replaced_choice_element constants.now) elements.now ≡ elements.now }
{
    for element in elements {
        if !is_element_kept(element, constants) {
            return false;
        }
    }
    true
}

fn is_element_kept(element: &ChoiceElement, constants: &ConstantTable) -> bool
    ensures { IsTrue result → spec.replaced_choice_element constants.now element.now ≡ element.now }
{
    let atom = is_atom_kept(&element.atom, constants);
    let condition = are_literals_kept(element.condition.items(), constants);
    atom && condition
}
