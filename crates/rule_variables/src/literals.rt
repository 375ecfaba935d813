// Which variables occur in literals, elements, heads and bodies, and which of them positive atoms bind.
ghost use Rattle.std.specs.Prelude.{◌≡◌, ◌||◌, map};
ghost use Rattle.std.specs.List.{list_any};
ghost use Rattle.program_meaning.specs.Read.{plain_of, literal_read, choice_read, head_read};
ghost use Rattle.program_meaning.specs.Variables as spec;
ghost use Rattle.rule_variables.specs.Reading.{element_read, plain_literals};

use crate::terms::{occurs, occurs_in_guard, occurs_in_option, occurs_in_some, occurs_outside};
use syntax_tree::{ChoiceElement, Head, Literal, TheoryElement};

// Whether the variable occurs in a literal of a condition, which has atoms and comparisons alone.
fn is_in_plain(number: u32, literal: &Literal) -> bool
    ensures { result ≡ list_any (spec.occurs_in number) (plain_of (literal_read literal.now)) }
{
    match literal {
        Literal::Atom(atom, _) => occurs(number, atom),
        Literal::Compare(left, _, right) => occurs(number, left) || occurs(number, right),
        Literal::Theory(_, _) => false,
    }
}

// Whether it occurs in a condition.
fn is_in_condition(number: u32, condition: &[Literal]) -> bool
    ensures { result ≡ list_any (spec.occurs_in number) (plain_literals condition.now) }
{
    for literal in condition {
        if is_in_plain(number, literal) {
            return true;
        }
    }
    false
}

// Whether it occurs in an element of a choice.
pub(crate) fn is_in_choice(number: u32, element: &ChoiceElement) -> bool
    ensures { result ≡ spec.occurs_in_choice number (choice_read element.now) }
{
    occurs(number, &element.atom) || is_in_condition(number, element.condition.items())
}

// Whether it occurs in the places of an element of a theory atom.
fn is_in_places(number: u32, element: &TheoryElement) -> bool
    ensures { result ≡ (spec.occurs number element.now.first || spec.occurs_in_option number element.now.duration || list_any (spec.occurs number) element.now.rest) }
{
    occurs(number, &element.first)
        || occurs_in_option(number, &element.duration)
        || occurs_in_some(number, element.rest.items())
}

// Whether it occurs in an element of a theory atom.
pub(crate) fn is_in_element(number: u32, element: &TheoryElement) -> bool
    ensures { result ≡ spec.occurs_in_element number (element_read element.now) }
{
    is_in_places(number, element) || is_in_condition(number, element.condition.as_slice())
}

// Whether it occurs in a literal of a body, outside the elements of a theory atom.
fn is_in_literal(number: u32, literal: &Literal) -> bool
    ensures { result ≡ spec.occurs_in_literal number (literal_read literal.now) }
{
    match literal {
        Literal::Atom(atom, _) => occurs(number, atom),
        Literal::Compare(left, _, right) => occurs(number, left) || occurs(number, right),
        Literal::Theory(theory, _) => occurs_in_guard(number, &theory.guard),
    }
}

// Whether it occurs in a body, outside the elements of theory atoms.
pub(crate) fn is_in_body(number: u32, body: &[Literal]) -> bool
    ensures { result ≡ list_any (spec.occurs_in_literal number) (map literal_read body.now) }
{
    for literal in body {
        if is_in_literal(number, literal) {
            return true;
        }
    }
    false
}

// Whether it occurs in a head, outside the elements of a theory atom or a choice.
pub(crate) fn is_in_head(number: u32, head: &Head) -> bool
    ensures { result ≡ spec.occurs_in_head number (head_read head.now) }
{
    match head {
        Head::Nothing => false,
        Head::Atom(atom) => occurs(number, atom),
        Head::Theory(theory) => occurs_in_guard(number, &theory.guard),
        Head::Choice(choice) => {
            occurs_in_guard(number, &choice.left) || occurs_in_guard(number, &choice.right)
        }
    }
}

// Whether the literal is a positive atom that binds the variable.
fn binds(number: u32, literal: &Literal) -> bool
    ensures { result ≡ list_any (spec.atom_binds number) (plain_of (literal_read literal.now)) }
{
    match literal {
        Literal::Atom(atom, sign) => *sign && occurs_outside(number, atom),
        Literal::Compare(_, _, _) => false,
        Literal::Theory(_, _) => false,
    }
}

/// Whether a positive atom among the literals binds the variable.
pub fn is_atom_bound(number: u32, literals: &[Literal]) -> bool
    ensures { result ≡ list_any (spec.atom_binds number) (plain_literals literals.now) }
{
    for literal in literals {
        if binds(number, literal) {
            return true;
        }
    }
    false
}
