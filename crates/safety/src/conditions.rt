// The atoms in the conditions of theory atoms, and the first of no domain predicate.
ghost use Rattle.std.specs.Prelude.{◌≡◌, ◌∷◌, [], List, map, IfOk, OnOk};
ghost use Rattle.std.specs.List.{AllZip, flat_map};
ghost use Rattle.program_meaning.specs.Read.{ReadRule, plain_of, plains, literal_read, theory_read, head_read, rule_read};
ghost use Rattle.program_meaning.specs.Tuples.{told_in, duty_in};
ghost use Rattle.variable_safety.specs.inner.Occurring.{element_read};
ghost use Rattle.predicate_order.specs.Ways.{NamedWay, blocking_ways};
ghost use Rattle.predicate_order.specs.Judged.{Judges, Tells};
ghost use Rattle.safety_meaning.specs.Failures.{atom_of, atoms_of_element, atoms_of_theory, condition_atoms};
ghost use Rattle.safety.specs.inner.Rules.{AddsAnswers, IsFirst, IsTwin, IsDomainAnswer};

use predicate_order::{Ways, is_atom_reached};
use std::alloc::Global;
use symbols::{Listed, Memory};
use syntax_tree::{Head, Literal, Rule, Term, TheoryAtom, TheoryElement};

// The first atom in a condition of a theory atom that is of no domain predicate, by its place among them.
pub(crate) fn first_no_domain(
    alloc: Global,
    ways: &Ways,
    flags: &[bool],
    rule: &Rule,
) -> Result<Option<usize>, Memory>
    ensures { IfOk result (λ found. (bare rules : List ReadRule) → Judges ways.now.table.keys flags.now (blocking_ways bare) → AllZip IsTwin bare rules → IsDomainAnswer rules (rule_read rule.now []) found) }
{
    let answers = answers(alloc, ways, flags, rule)?;
    let found = first_true(answers.items());
    Ok(found)
}

fn first_true(answers: &[bool]) -> Option<usize>
    ensures { IsFirst (λ answer. answer) answers.now result }
{
    for place in 0..answers.len() {
        if answers[place] {
            return Some(place);
        }
    }
    None
}

// Whether the predicate of each of these atoms is reached.
fn answers(alloc: Global, ways: &Ways, flags: &[bool], rule: &Rule) -> Result<Listed<bool>, Memory>
    ensures { IfOk result (λ answers. (named : List NamedWay) → Judges ways.now.table.keys flags.now named → AllZip (Tells named) (condition_atoms (rule_read rule.now [])) answers) }
{
    let mut found = Listed::new(alloc);
    in_head(alloc, ways, flags, &rule.head, &mut found)?;
    in_body(alloc, ways, flags, rule.body.items(), &mut found)?;
    Ok(found)
}

fn in_atom(
    alloc: Global,
    ways: &Ways,
    flags: &[bool],
    atom: &Term,
    found: &mut Listed<bool>,
) -> Result<(), Memory>
    ensures { OnOk result (AddsAnswers ways.now.table.keys flags.now (atom.now ∷ []) found.old found.new) }
{
    let answer = is_atom_reached(alloc, ways, flags, atom)?;
    found.push(answer)?;
    Ok(())
}

fn in_literal(
    alloc: Global,
    ways: &Ways,
    flags: &[bool],
    literal: &Literal,
    found: &mut Listed<bool>,
) -> Result<(), Memory>
    ensures { OnOk result (AddsAnswers ways.now.table.keys flags.now (flat_map atom_of (plain_of (literal_read literal.now))) found.old found.new) }
{
    match literal {
        Literal::Atom(atom, _) => in_atom(alloc, ways, flags, atom, found),
        Literal::Compare(_, _, _) => Ok(()),
        Literal::Theory(_, _) => Ok(()),
    }
}

fn in_condition(
    alloc: Global,
    ways: &Ways,
    flags: &[bool],
    condition: &[Literal],
    found: &mut Listed<bool>,
) -> Result<(), Memory>
    ensures { OnOk result (AddsAnswers ways.now.table.keys flags.now (flat_map atom_of (plains (map literal_read condition.now))) found.old found.new) }
{
    for literal in condition {
        in_literal(alloc, ways, flags, literal, found)?;
    }
    Ok(())
}

fn in_element(
    alloc: Global,
    ways: &Ways,
    flags: &[bool],
    element: &TheoryElement,
    found: &mut Listed<bool>,
) -> Result<(), Memory>
    ensures { OnOk result (AddsAnswers ways.now.table.keys flags.now (atoms_of_element (element_read element.now)) found.old found.new) }
{
    in_condition(alloc, ways, flags, element.condition.as_slice(), found)?;
    Ok(())
}

fn in_elements(
    alloc: Global,
    ways: &Ways,
    flags: &[bool],
    elements: &[TheoryElement],
    found: &mut Listed<bool>,
) -> Result<(), Memory>
    ensures { OnOk result (AddsAnswers ways.now.table.keys flags.now (flat_map atoms_of_element (map element_read elements.now)) found.old found.new) }
{
    for element in elements {
        in_element(alloc, ways, flags, element, found)?;
    }
    Ok(())
}

fn in_theory(
    alloc: Global,
    ways: &Ways,
    flags: &[bool],
    theory: &TheoryAtom,
    found: &mut Listed<bool>,
) -> Result<(), Memory>
    ensures { OnOk result (AddsAnswers ways.now.table.keys flags.now (atoms_of_theory (theory_read theory.now)) found.old found.new) }
{
    in_elements(alloc, ways, flags, theory.elements.as_slice(), found)
}

fn in_head(
    alloc: Global,
    ways: &Ways,
    flags: &[bool],
    head: &Head,
    found: &mut Listed<bool>,
) -> Result<(), Memory>
    ensures { OnOk result (AddsAnswers ways.now.table.keys flags.now (flat_map atoms_of_theory (duty_in (head_read head.now))) found.old found.new) }
{
    match head {
        Head::Nothing => Ok(()),
        Head::Atom(_) => Ok(()),
        Head::Theory(theory) => {
            in_theory(alloc, ways, flags, theory, found)?;
            Ok(())
        }
        Head::Choice(_) => Ok(()),
    }
}

fn in_told(
    alloc: Global,
    ways: &Ways,
    flags: &[bool],
    literal: &Literal,
    found: &mut Listed<bool>,
) -> Result<(), Memory>
    ensures { OnOk result (AddsAnswers ways.now.table.keys flags.now (flat_map atoms_of_theory (told_in (literal_read literal.now))) found.old found.new) }
{
    match literal {
        Literal::Atom(_, _) => Ok(()),
        Literal::Compare(_, _, _) => Ok(()),
        Literal::Theory(theory, _) => {
            in_theory(alloc, ways, flags, theory, found)?;
            Ok(())
        }
    }
}

fn in_body(
    alloc: Global,
    ways: &Ways,
    flags: &[bool],
    body: &[Literal],
    found: &mut Listed<bool>,
) -> Result<(), Memory>
    ensures { OnOk result (AddsAnswers ways.now.table.keys flags.now (flat_map atoms_of_theory (flat_map told_in (map literal_read body.now))) found.old found.new) }
{
    for literal in body {
        in_told(alloc, ways, flags, literal, found)?;
    }
    Ok(())
}
