// The atoms of a rule.
ghost use Rattle.std.specs.Prelude.{◌≡◌, ◌++◌, [], map, IfOk, OnOk};
ghost use Rattle.std.specs.List.{flat_map};
ghost use Rattle.program_meaning.specs.Read.{choice_read, head_read, literal_read, plain_of, plains, rule_read, theory_read};
ghost use Rattle.refusals.specs.inner.Atoms.{atom_in, choice_atoms, condition_atoms, element_atoms, element_read, head_atoms, literal_atoms, plain_atoms, rule_atoms, theory_atoms};

use std::alloc::Global;
use symbols::{Listed, Memory};
use syntax_tree::{ChoiceElement, Head, Literal, Rule, Term, TheoryAtom, TheoryElement};

/// An atom of a rule, and whether it stands in a condition of a theory atom.
#[derive(Clone, Copy)]
pub(crate) struct SeenAtom<'a> {
    pub atom: &'a Term,
    pub in_condition: bool,
}

// An atom is seen, and nothing else is.
fn note_plain<'a>(
    in_condition: bool,
    literal: &'a Literal,
    seen: &mut Listed<SeenAtom<'a>>,
) -> Result<(), Memory>
    ensures { OnOk result (map atom_in seen.new ≡ map atom_in seen.old ++ flat_map (plain_atoms in_condition) (plain_of (literal_read literal.now))) }
{
    match literal {
        Literal::Atom(atom, _) => seen.push(SeenAtom { atom, in_condition }),
        Literal::Compare(_, _, _) => Ok(()),
        Literal::Theory(_, _) => Ok(()),
    }
}

fn note_condition<'a>(
    in_condition: bool,
    condition: &'a [Literal],
    seen: &mut Listed<SeenAtom<'a>>,
) -> Result<(), Memory>
    ensures { OnOk result (map atom_in seen.new ≡ map atom_in seen.old ++ condition_atoms in_condition (plains (map literal_read condition.now))) }
{
    for literal in condition {
        note_plain(in_condition, literal, seen)?;
    }
    Ok(())
}

fn note_element<'a>(
    element: &'a TheoryElement,
    seen: &mut Listed<SeenAtom<'a>>,
) -> Result<(), Memory>
    ensures { OnOk result (map atom_in seen.new ≡ map atom_in seen.old ++ element_atoms (element_read element.now)) }
{
    note_condition(true, element.condition.as_slice(), seen)
}

fn note_elements<'a>(
    elements: &'a [TheoryElement],
    seen: &mut Listed<SeenAtom<'a>>,
) -> Result<(), Memory>
    ensures { OnOk result (map atom_in seen.new ≡ map atom_in seen.old ++ flat_map element_atoms (map element_read elements.now)) }
{
    for element in elements {
        note_element(element, seen)?;
    }
    Ok(())
}

fn note_theory<'a>(theory: &'a TheoryAtom, seen: &mut Listed<SeenAtom<'a>>) -> Result<(), Memory>
    ensures { OnOk result (map atom_in seen.new ≡ map atom_in seen.old ++ theory_atoms (theory_read theory.now)) }
{
    note_elements(theory.elements.as_slice(), seen)
}

fn note_literal<'a>(literal: &'a Literal, seen: &mut Listed<SeenAtom<'a>>) -> Result<(), Memory>
    ensures { OnOk result (map atom_in seen.new ≡ map atom_in seen.old ++ literal_atoms (literal_read literal.now)) }
{
    match literal {
        Literal::Atom(atom, _) => seen.push(SeenAtom {
            atom,
            in_condition: false,
        }),
        Literal::Compare(_, _, _) => Ok(()),
        Literal::Theory(theory, _) => note_theory(theory, seen),
    }
}

fn note_body<'a>(body: &'a [Literal], seen: &mut Listed<SeenAtom<'a>>) -> Result<(), Memory>
    ensures { OnOk result (map atom_in seen.new ≡ map atom_in seen.old ++ flat_map literal_atoms (map literal_read body.now)) }
{
    for literal in body {
        note_literal(literal, seen)?;
    }
    Ok(())
}

fn note_choice<'a>(
    element: &'a ChoiceElement,
    seen: &mut Listed<SeenAtom<'a>>,
) -> Result<(), Memory>
    ensures { OnOk result (map atom_in seen.new ≡ map atom_in seen.old ++ choice_atoms (choice_read element.now)) }
{
    seen.push(SeenAtom {
        atom: &element.atom,
        in_condition: false,
    })?;
    note_condition(false, element.condition.items(), seen)
}

fn note_choices<'a>(
    elements: &'a [ChoiceElement],
    seen: &mut Listed<SeenAtom<'a>>,
) -> Result<(), Memory>
    ensures { OnOk result (map atom_in seen.new ≡ map atom_in seen.old ++ flat_map choice_atoms (map choice_read elements.now)) }
{
    for element in elements {
        note_choice(element, seen)?;
    }
    Ok(())
}

fn note_head<'a>(head: &'a Head, seen: &mut Listed<SeenAtom<'a>>) -> Result<(), Memory>
    ensures { OnOk result (map atom_in seen.new ≡ map atom_in seen.old ++ head_atoms (head_read head.now)) }
{
    match head {
        Head::Nothing => Ok(()),
        Head::Atom(atom) => seen.push(SeenAtom {
            atom,
            in_condition: false,
        }),
        Head::Theory(theory) => note_theory(theory, seen),
        Head::Choice(choice) => note_choices(choice.elements.items(), seen),
    }
}

/// The atoms of a rule, in the order of its text.
pub(crate) fn seen_atoms<'a>(alloc: Global, rule: &'a Rule) -> Result<Listed<SeenAtom<'a>>, Memory>
    ensures { IfOk result (λ seen. map atom_in seen ≡ rule_atoms (rule_read rule.now [])) }
{
    let mut seen = Listed::new(alloc);
    note_head(&rule.head, &mut seen)?;
    note_body(rule.body.items(), &mut seen)?;
    Ok(seen)
}

/// For each of the atoms whether it stands in a condition of a theory atom.
pub(crate) fn condition_flags(alloc: Global, seen: &[SeenAtom<'_>]) -> Result<Listed<bool>, Memory>
    ensures { IfOk result (λ flags. flags ≡ map (λ atom. atom.in_condition) seen.now) }
{
    let mut flags = Listed::new(alloc);
    for atom in seen {
        flags.push(atom.in_condition)?;
    }
    Ok(flags)
}
