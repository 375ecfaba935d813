// The variables of literals, elements, heads and bodies.
ghost use Rattle.std.specs.Prelude.{◌≡◌, ◌++◌, map, OnOk};
ghost use Rattle.std.specs.List.{flat_map};
ghost use Rattle.program_meaning.specs.Read.{plain_of, literal_read, choice_read, head_read};
ghost use Rattle.variable_safety.specs.inner.Occurring.{variables_in, variables_of, literal_variables, guard_variables, head_variables, element_variables, choice_variables, element_read};
ghost use Rattle.variable_safety.specs.inner.Binding.{plain_literals};

use crate::terms::{in_optional, in_terms, variables};
use symbols::{Listed, Memory};
use syntax_tree::{Choice, ChoiceElement, Guard, Head, Literal, Term, TheoryElement};

// Puts the variables of a guard that may be there behind those before them.
fn in_guard(guard: &Option<Guard>, found: &mut Listed<u32>) -> Result<(), Memory>
    ensures { OnOk result (found.new ≡ found.old ++ guard_variables guard.now) }
{
    match guard {
        Some(one) => variables(&one.right, found),
        None => Ok(()),
    }
}

fn in_comparison(left: &Term, right: &Term, found: &mut Listed<u32>) -> Result<(), Memory>
    ensures { OnOk result (found.new ≡ found.old ++ (variables_in left.now ++ variables_in right.now)) }
{
    variables(left, found)?;
    variables(right, found)?;
    Ok(())
}

// Those of a literal of a condition, which has atoms and comparisons alone.
fn in_plain(literal: &Literal, found: &mut Listed<u32>) -> Result<(), Memory>
    ensures { OnOk result (found.new ≡ found.old ++ flat_map variables_of (plain_of (literal_read literal.now))) }
{
    match literal {
        Literal::Atom(atom, _) => variables(atom, found),
        Literal::Compare(left, _, right) => in_comparison(left, right, found),
        Literal::Theory(_, _) => Ok(()),
    }
}

// Those of a condition.
fn in_condition(condition: &[Literal], found: &mut Listed<u32>) -> Result<(), Memory>
    ensures { OnOk result (found.new ≡ found.old ++ flat_map variables_of (plain_literals condition.now)) }
{
    for literal in condition {
        in_plain(literal, found)?;
    }
    Ok(())
}

// Those of an element of a theory atom.
pub(crate) fn in_element(element: &TheoryElement, found: &mut Listed<u32>) -> Result<(), Memory>
    ensures { OnOk result (found.new ≡ found.old ++ element_variables (element_read element.now)) }
{
    variables(&element.first, found)?;
    in_optional(&element.duration, found)?;
    in_terms(element.rest.items(), found)?;
    in_condition(element.condition.as_slice(), found)?;
    Ok(())
}

// Those of an element of a choice.
pub(crate) fn in_choice(element: &ChoiceElement, found: &mut Listed<u32>) -> Result<(), Memory>
    ensures { OnOk result (found.new ≡ found.old ++ choice_variables (choice_read element.now)) }
{
    variables(&element.atom, found)?;
    in_condition(element.condition.items(), found)?;
    Ok(())
}

// Those of a literal of a body, outside the elements of a theory atom.
fn in_literal(literal: &Literal, found: &mut Listed<u32>) -> Result<(), Memory>
    ensures { OnOk result (found.new ≡ found.old ++ literal_variables (literal_read literal.now)) }
{
    match literal {
        Literal::Atom(atom, _) => variables(atom, found),
        Literal::Compare(left, _, right) => in_comparison(left, right, found),
        Literal::Theory(theory, _) => in_guard(&theory.guard, found),
    }
}

// Those of a body, outside the elements of theory atoms.
pub(crate) fn in_body(body: &[Literal], found: &mut Listed<u32>) -> Result<(), Memory>
    ensures { OnOk result (found.new ≡ found.old ++ flat_map literal_variables (map literal_read body.now)) }
{
    for literal in body {
        in_literal(literal, found)?;
    }
    Ok(())
}

// Those of the bounds of a choice.
fn in_bounds(choice: &Choice, found: &mut Listed<u32>) -> Result<(), Memory>
    ensures { OnOk result (found.new ≡ found.old ++ (guard_variables choice.now.left ++ guard_variables choice.now.right)) }
{
    in_guard(&choice.left, found)?;
    in_guard(&choice.right, found)?;
    Ok(())
}

// Those of a head, outside the elements of a choice or a theory atom.
pub(crate) fn in_head(head: &Head, found: &mut Listed<u32>) -> Result<(), Memory>
    ensures { OnOk result (found.new ≡ found.old ++ head_variables (head_read head.now)) }
{
    match head {
        Head::Nothing => Ok(()),
        Head::Atom(atom) => variables(atom, found),
        Head::Theory(theory) => in_guard(&theory.guard, found),
        Head::Choice(choice) => in_bounds(choice, found),
    }
}
