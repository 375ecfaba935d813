// The variables of a rule, and of its elements.
ghost use Rattle.std.specs.Prelude.{◌≡◌, ◌++◌, ◌∷◌, ◌&&◌, [], not, if◌then◌else◌, IfOk, OnOk};
ghost use Rattle.program_meaning.specs.Read.{rule_read, choice_read};
ghost use Rattle.program_meaning.specs.Variables as spec;
ghost use Rattle.rule_variables.specs.Reading.{element_read};

use crate::literals::{is_in_body, is_in_choice, is_in_element, is_in_head};
use std::alloc::Global;
use symbols::{Listed, Memory};
use syntax_tree::{ChoiceElement, Rule, TheoryElement};

// Whether the variable occurs outside the elements of choices and theory atoms.
fn is_global(number: u32, rule: &Rule) -> bool
    ensures { result ≡ spec.is_global (rule_read rule.now []) number }
{
    is_in_head(number, &rule.head) || is_in_body(number, rule.body.items())
}

// Puts a number behind others where it is wanted.
fn push_if(wanted: bool, number: u32, found: &mut Listed<u32>) -> Result<(), Memory>
    ensures { OnOk result (found.new ≡ found.old ++ (if wanted then number ∷ [] else [])) }
{
    if wanted {
        found.push(number)?;
    }
    Ok(())
}

/// The global variables of a rule, in order.
pub fn globals(alloc: Global, rule: &Rule, order: &[u32]) -> Result<Listed<u32>, Memory>
    ensures { IfOk result (λ found. found ≡ spec.globals (rule_read rule.now order.now)) }
{
    let mut found = Listed::new(alloc);
    for number in order {
        push_if(is_global(*number, rule), *number, &mut found)?;
    }
    Ok(found)
}

/// The local variables of an element of a choice, in order.
pub fn choice_locals(
    alloc: Global,
    rule: &Rule,
    order: &[u32],
    element: &ChoiceElement,
) -> Result<Listed<u32>, Memory>
    ensures { IfOk result (λ found. found ≡ spec.choice_locals (rule_read rule.now order.now) (choice_read element.now)) }
{
    let mut found = Listed::new(alloc);
    for number in order {
        let is_local = is_in_choice(*number, element) && !is_global(*number, rule);
        push_if(is_local, *number, &mut found)?;
    }
    Ok(found)
}

/// The local variables of an element of a theory atom, in order.
pub fn element_locals(
    alloc: Global,
    rule: &Rule,
    order: &[u32],
    element: &TheoryElement,
) -> Result<Listed<u32>, Memory>
    ensures { IfOk result (λ found. found ≡ spec.element_locals (rule_read rule.now order.now) (element_read element.now)) }
{
    let mut found = Listed::new(alloc);
    for number in order {
        let is_local = is_in_element(*number, element) && !is_global(*number, rule);
        push_if(is_local, *number, &mut found)?;
    }
    Ok(found)
}
