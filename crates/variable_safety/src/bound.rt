// What literals bind, by a least model.
ghost use Rattle.std.specs.Prelude.{◌≡◌, ◌++◌, ◌∷◌, [], map, length, All, IfOk, OnOk};
ghost use Rattle.std.specs.List.{flat_map};
ghost use Rattle.program_meaning.specs.Read.{plain_of, literal_read};
ghost use Rattle.variable_safety.specs.inner.Occurring.{variables_in, outside_in};
ghost use Rattle.variable_safety.specs.inner.Binding.{fact, side_rules, equation_rules, binding_rules, plain_literals, AreBound};

use crate::bindings::Bindings;
use crate::terms::{outside, plain_variable, variables};
use std::alloc::Global;
use symbols::{Listed, Memory, Rel};
use syntax_tree::{Literal, Term};

// The flags of the variables that literals bind, where these are given.
pub(crate) fn bound(
    alloc: Global,
    literals: &[Literal],
    given: &[u32],
) -> Result<Listed<bool>, Memory>
    ensures { IfOk result (AreBound given.now (plain_literals literals.now)) }
{
    let mut bindings = Bindings::new(alloc);
    bindings.push_facts(given)?;
    push_literals(alloc, literals, &mut bindings)?;
    let flags = bindings.flags(alloc)?;
    Ok(flags)
}

fn push_literals(alloc: Global, literals: &[Literal], bindings: &mut Bindings) -> Result<(), Memory>
    ensures { OnOk result (bindings.new.rules ≡ bindings.old.rules ++ flat_map binding_rules (plain_literals literals.now)) }
{
    for literal in literals {
        push_literal(alloc, literal, bindings)?;
    }
    Ok(())
}

fn push_literal(alloc: Global, literal: &Literal, bindings: &mut Bindings) -> Result<(), Memory>
    ensures { OnOk result (bindings.new.rules ≡ bindings.old.rules ++ flat_map binding_rules (plain_of (literal_read literal.now))) }
{
    match literal {
        Literal::Atom(atom, true) => push_atom(alloc, atom, bindings),
        Literal::Atom(_, false) => Ok(()),
        Literal::Compare(left, rel, right) => push_comparison(alloc, left, *rel, right, bindings),
        Literal::Theory(_, _) => Ok(()),
    }
}

// A positive atom binds the variables that occur in it outside arithmetic.
fn push_atom(alloc: Global, atom: &Term, bindings: &mut Bindings) -> Result<(), Memory>
    ensures { OnOk result (bindings.new.rules ≡ bindings.old.rules ++ map fact (outside_in atom.now)) }
{
    let mut found = Listed::new(alloc);
    outside(atom, &mut found)?;
    bindings.push_facts(found.items())?;
    Ok(())
}

fn push_comparison(
    alloc: Global,
    left: &Term,
    rel: Rel,
    right: &Term,
    bindings: &mut Bindings,
) -> Result<(), Memory>
    ensures { OnOk result (bindings.new.rules ≡ bindings.old.rules ++ equation_rules rel left.now right.now) }
{
    match rel {
        Rel::Equal => push_equation(alloc, left, right, bindings),
        Rel::NotEqual => Ok(()),
        Rel::Less => Ok(()),
        Rel::LessEqual => Ok(()),
        Rel::Greater => Ok(()),
        Rel::GreaterEqual => Ok(()),
    }
}

fn push_equation(
    alloc: Global,
    left: &Term,
    right: &Term,
    bindings: &mut Bindings,
) -> Result<(), Memory>
    ensures { OnOk result (bindings.new.rules ≡ bindings.old.rules ++ (side_rules left.now right.now ++ side_rules right.now left.now)) }
{
    push_side(alloc, left, right, bindings)?;
    push_side(alloc, right, left, bindings)?;
    Ok(())
}

// A variable that is one side of an equation is bound once those of the other side are.
fn push_side(
    alloc: Global,
    side: &Term,
    other: &Term,
    bindings: &mut Bindings,
) -> Result<(), Memory>
    ensures { OnOk result (bindings.new.rules ≡ bindings.old.rules ++ side_rules side.now other.now) }
{
    match plain_variable(side) {
        Some(number) => push_other(alloc, number, other, bindings),
        None => Ok(()),
    }
}

fn push_other(
    alloc: Global,
    number: u32,
    other: &Term,
    bindings: &mut Bindings,
) -> Result<(), Memory>
    ensures { OnOk result (bindings.new.rules ≡ bindings.old.rules ++ record { head = number; body = variables_in other.now } ∷ []) }
{
    let mut found = Listed::new(alloc);
    variables(other, &mut found)?;
    bindings.push(number, found.items())?;
    Ok(())
}
