// Variables that a condition does not bind are noted.
ghost use Rattle.std.specs.Prelude.{◌≡◌, map, OnOk};
ghost use Rattle.ground_model.specs.Members.{IsMember};
ghost use Rattle.program_meaning.specs.Safety.{IsBound};
ghost use Rattle.program_meaning.specs.Read.{literal_read, theory_read, choice_read, head_read};
ghost use Rattle.variable_safety.specs.inner.Occurring.{element_read};
ghost use Rattle.variable_safety.specs.inner.Binding.{plain_literals};
ghost use Rattle.variable_safety.specs.inner.Noting.{Notes, IsLoose, LooseInElement, LooseInElements, LooseInChoice, LooseInChoices, LooseInHead, LooseInLiteral, LooseInBody};

use crate::bound::bound;
use crate::flags::note_others;
use crate::given::Given;
use crate::literals::{in_choice, in_element};
use std::alloc::Global;
use symbols::{Listed, Memory};
use syntax_tree::{ChoiceElement, Head, Literal, TheoryAtom, TheoryElement};

// Notes those of these variables that are not given and that literals do not bind.
pub(crate) fn note_loose(
    alloc: Global,
    given: &Given,
    variables: &[u32],
    literals: &[Literal],
    found: &mut Listed<u32>,
) -> Result<(), Memory>
    ensures { OnOk result (Notes (IsLoose given.now.listed variables.now (plain_literals literals.now)) found.old found.new) }
{
    let mut locals = Listed::new(alloc);
    note_others(variables, given.flags.items(), &mut locals)?;
    if locals.is_empty() {
        return Ok(());
    }
    note_unbound(alloc, given, locals.items(), literals, found)?;
    Ok(())
}

// The same, where some variable is not given.
fn note_unbound(
    alloc: Global,
    given: &Given,
    locals: &[u32],
    literals: &[Literal],
    found: &mut Listed<u32>,
) -> Result<(), Memory>
    ensures { OnOk result (Notes (λ n. IsMember locals.now n × (IsBound (IsMember given.now.listed) (plain_literals literals.now) n → ⊥)) found.old found.new) }
{
    let flags = bound(alloc, literals, given.listed.items())?;
    note_others(locals, flags.items(), found)?;
    Ok(())
}

fn note_element(
    alloc: Global,
    given: &Given,
    element: &TheoryElement,
    found: &mut Listed<u32>,
) -> Result<(), Memory>
    ensures { OnOk result (Notes (LooseInElement given.now.listed (element_read element.now)) found.old found.new) }
{
    let mut variables = Listed::new(alloc);
    in_element(element, &mut variables)?;
    note_loose(
        alloc,
        given,
        variables.items(),
        element.condition.as_slice(),
        found,
    )?;
    Ok(())
}

fn note_elements(
    alloc: Global,
    given: &Given,
    elements: &[TheoryElement],
    found: &mut Listed<u32>,
) -> Result<(), Memory>
    ensures { OnOk result (Notes (LooseInElements given.now.listed (map element_read elements.now)) found.old found.new) }
{
    for element in elements {
        note_element(alloc, given, element, found)?;
    }
    Ok(())
}

fn note_theory(
    alloc: Global,
    given: &Given,
    theory: &TheoryAtom,
    found: &mut Listed<u32>,
) -> Result<(), Memory>
    ensures { OnOk result (Notes (LooseInElements given.now.listed (theory_read theory.now).elements) found.old found.new) }
{
    note_elements(alloc, given, theory.elements.as_slice(), found)
}

fn note_choice(
    alloc: Global,
    given: &Given,
    element: &ChoiceElement,
    found: &mut Listed<u32>,
) -> Result<(), Memory>
    ensures { OnOk result (Notes (LooseInChoice given.now.listed (choice_read element.now)) found.old found.new) }
{
    let mut variables = Listed::new(alloc);
    in_choice(element, &mut variables)?;
    note_loose(
        alloc,
        given,
        variables.items(),
        element.condition.items(),
        found,
    )?;
    Ok(())
}

fn note_choices(
    alloc: Global,
    given: &Given,
    elements: &[ChoiceElement],
    found: &mut Listed<u32>,
) -> Result<(), Memory>
    ensures { OnOk result (Notes (LooseInChoices given.now.listed (map choice_read elements.now)) found.old found.new) }
{
    for element in elements {
        note_choice(alloc, given, element, found)?;
    }
    Ok(())
}

pub(crate) fn note_head(
    alloc: Global,
    given: &Given,
    head: &Head,
    found: &mut Listed<u32>,
) -> Result<(), Memory>
    ensures { OnOk result (Notes (LooseInHead given.now.listed (head_read head.now)) found.old found.new) }
{
    match head {
        Head::Nothing => Ok(()),
        Head::Atom(_) => Ok(()),
        Head::Theory(theory) => note_theory(alloc, given, theory, found),
        Head::Choice(choice) => {
            note_choices(alloc, given, choice.elements.items(), found)?;
            Ok(())
        }
    }
}

fn note_literal(
    alloc: Global,
    given: &Given,
    literal: &Literal,
    found: &mut Listed<u32>,
) -> Result<(), Memory>
    ensures { OnOk result (Notes (LooseInLiteral given.now.listed (literal_read literal.now)) found.old found.new) }
{
    match literal {
        Literal::Atom(_, _) => Ok(()),
        Literal::Compare(_, _, _) => Ok(()),
        Literal::Theory(theory, _) => {
            note_theory(alloc, given, theory, found)?;
            Ok(())
        }
    }
}

pub(crate) fn note_body(
    alloc: Global,
    given: &Given,
    body: &[Literal],
    found: &mut Listed<u32>,
) -> Result<(), Memory>
    ensures { OnOk result (Notes (LooseInBody given.now.listed (map literal_read body.now)) found.old found.new) }
{
    for literal in body {
        note_literal(alloc, given, literal, found)?;
    }
    Ok(())
}
