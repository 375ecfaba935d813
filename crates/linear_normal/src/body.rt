// Bodies of rules as conjunctions.
ghost use Rattle.std.specs.Prelude.{◌≡◌, ◌+◌, ◌++◌, ◌∷◌, [], map, length, List, ℕ, IfOk, OnOk};
ghost use Rattle.std.specs.List.{AllByRecursion, flat_map};
ghost use Rattle.literals.specs.Lits.{IsLit};
ghost use Rattle.literals.specs.Nogoods.{canonical};
ghost use Rattle.ground_model.specs.declared.rule.BodyLit.{BodyLit};
ghost use Rattle.linear_normal.specs.Contents.{Content};
ghost use Rattle.linear_normal.specs.Bodies.{element_body, selecting_body};
ghost use Rattle.linear_normal.specs.Demands.{literal_demands};
ghost use Rattle.linear_normal.specs.Numbering.{lit_of, conjunction_of};
ghost use Rattle.linear_normal.specs.inner.Tables.{Gives, IsSoundLiteral, IsSoundItem, IsCountedAtom};

use crate::constraint::Constraint;
use crate::numbered::Conjunction;
use crate::relation::add_relation;
use ground_model::{BodyLit, ChoiceItem};
use indexmap::IndexSet;
use literals::{Lit, Nogood};
use std::alloc::Global;
use symbols::{Listed, Memory};

// A body's literal by number.
fn add_literal(
    alloc: Global,
    variables: usize,
    keys: &mut IndexSet<Constraint>,
    literal: &BodyLit,
) -> Result<Lit, Memory>
    requires { IsSoundLiteral variables literal.now }
    ensures literal { IfOk result IsLit }
    ensures gives { IfOk result (λ lit. Gives keys.old.keys keys.new.keys (literal_demands variables literal.now) (λ later. lit ≡ lit_of later variables literal.now)) }
{
    match literal {
        BodyLit::Atom(atom, sign) => Ok(Lit::Atom(*atom, *sign)),
        BodyLit::Theory(relation, sign) => {
            let number = add_relation(alloc, variables, keys, relation)?;
            Ok(Lit::Constraint(number, *sign))
        }
    }
}

// The literals of a body by number, in order.
pub(crate) fn add_literals(
    alloc: Global,
    variables: usize,
    keys: &mut IndexSet<Constraint>,
    body: &[BodyLit],
) -> Result<Vec<Lit>, Memory>
    requires { AllByRecursion (IsSoundLiteral variables) body.now }
    ensures literals { IfOk result (λ lits. AllByRecursion IsLit lits.items) }
    ensures gives { IfOk result (λ lits. Gives keys.old.keys keys.new.keys (flat_map (literal_demands variables) body.now) (λ later. lits.items ≡ map (lit_of later variables) body.now)) }
{
    let mut lits = Vec::new(alloc);
    for literal in body {
        let lit = add_literal(alloc, variables, keys, literal)?;
        lits.push(lit)?;
    }
    Ok(lits)
}

// The conjunction of these literals.
pub(crate) fn conjunction(alloc: Global, lits: &[Lit]) -> Result<Conjunction, Memory>
    requires { AllByRecursion IsLit lits.now }
    ensures { IfOk result (λ c. c.lits ≡ canonical lits.now) }
{
    let sorted = Nogood::from_lits(alloc, lits)?;
    let lits = Listed::from_slice(alloc, sorted.lits())?;
    Ok(Conjunction { lits })
}

// Adds a literal that names an atom.
fn add_atom(lits: &mut Vec<Lit>, literal: &BodyLit) -> Result<(), Memory>
    requires { IsCountedAtom literal.now }
    ensures literals { OnOk result (AllByRecursion IsLit lits.old.items → AllByRecursion IsLit lits.new.items) }
    ensures lits { OnOk result ((later : List Content) (variables : ℕ) → lits.new.items ≡ lits.old.items ++ lit_of later variables literal.now ∷ []) }
{
    match literal {
        BodyLit::Atom(atom, sign) => {
            lits.push(Lit::Atom(*atom, *sign))?;
            Ok(())
        }
        BodyLit::Theory(_, _) => Ok(()),
    }
}

// Adds the literals of a condition, which are atoms.
fn add_condition(lits: &mut Vec<Lit>, condition: &[BodyLit]) -> Result<(), Memory>
    requires { AllByRecursion IsCountedAtom condition.now }
    ensures literals { OnOk result (AllByRecursion IsLit lits.old.items → AllByRecursion IsLit lits.new.items) }
    ensures lits { OnOk result ((later : List Content) (variables : ℕ) → lits.new.items ≡ lits.old.items ++ map (lit_of later variables) condition.now) }
{
    for literal in condition {
        add_atom(lits, literal)?;
    }
    Ok(())
}

// The conjunction of a rule's body and an element's condition.
fn element_conjunction(alloc: Global, own: &[Lit], item: &ChoiceItem) -> Result<Conjunction, Memory>
    requires own { AllByRecursion IsLit own.now }
    requires item { IsSoundItem item.now }
    ensures { IfOk result (λ c. (later : List Content) (variables : ℕ) (body : List BodyLit)
        → own.now ≡ map (lit_of later variables) body → c ≡ conjunction_of later variables (element_body body item.now)) }
{
    let mut lits = Vec::from_slice(alloc, own)?;
    add_condition(&mut lits, item.condition.items())?;
    let found = conjunction(alloc, &lits)?;
    Ok(found)
}

// The same with the element's atom.
fn selecting_conjunction(
    alloc: Global,
    own: &[Lit],
    item: &ChoiceItem,
) -> Result<Conjunction, Memory>
    requires own { AllByRecursion IsLit own.now }
    requires item { IsSoundItem item.now }
    ensures { IfOk result (λ c. (later : List Content) (variables : ℕ) (body : List BodyLit)
        → own.now ≡ map (lit_of later variables) body → c ≡ conjunction_of later variables (selecting_body body item.now)) }
{
    let mut lits = Vec::from_slice(alloc, own)?;
    add_condition(&mut lits, item.condition.items())?;
    lits.push(Lit::Atom(item.atom, true))?;
    let found = conjunction(alloc, &lits)?;
    Ok(found)
}

// Adds the bodies by which elements are given.
pub(crate) fn add_element_bodies(
    alloc: Global,
    own: &[Lit],
    items: &[ChoiceItem],
    bodies: &mut Listed<Conjunction>,
) -> Result<(), Memory>
    requires own { AllByRecursion IsLit own.now }
    requires items { AllByRecursion IsSoundItem items.now }
    ensures length { OnOk result (length bodies.new ≡ length bodies.old + length items.now) }
    ensures bodies { OnOk result ((later : List Content) (variables : ℕ) (body : List BodyLit) → own.now ≡ map (lit_of later variables) body
        → bodies.new ≡ bodies.old ++ map (conjunction_of later variables) (map (element_body body) items.now)) }
{
    for item in items {
        let next = element_conjunction(alloc, own, item)?;
        bodies.push(next)?;
    }
    Ok(())
}

// Adds the bodies by which elements are taken.
pub(crate) fn add_selecting_bodies(
    alloc: Global,
    own: &[Lit],
    items: &[ChoiceItem],
    bodies: &mut Listed<Conjunction>,
) -> Result<(), Memory>
    requires own { AllByRecursion IsLit own.now }
    requires items { AllByRecursion IsSoundItem items.now }
    ensures length { OnOk result (length bodies.new ≡ length bodies.old + length items.now) }
    ensures bodies { OnOk result ((later : List Content) (variables : ℕ) (body : List BodyLit) → own.now ≡ map (lit_of later variables) body
        → bodies.new ≡ bodies.old ++ map (conjunction_of later variables) (map (selecting_body body) items.now)) }
{
    for item in items {
        let next = selecting_conjunction(alloc, own, item)?;
        bodies.push(next)?;
    }
    Ok(())
}
