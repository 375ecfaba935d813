// Rules over the numbers of atoms and variables.
ghost use Rattle.std.specs.Prelude.{◌≡◌, ◌<◌, ◌++◌, length, map, IfOk, OnOk};
ghost use Rattle.std.specs.List.{AllByRecursion};
ghost use Rattle.symbol_rules.specs.Reading.{HasRelation, HasTheory, HasItem, HasHead, HasRule};
ghost use Rattle.numbered_rules.specs.inner.ByNumber.{theory_by, literal_from, atoms_by, told_by, item_by, items_by, head_from, head_by, rule_by};

use crate::linear::{number_of, places, relation};
use ground_model::{BodyLit, ChoiceItem, GroundChoice, GroundHead, GroundRule, IntSet, TheoryHead};
use std::alloc::Global;
use symbol_rules::{SymbolHead, SymbolItem, SymbolRelation, SymbolRule, SymbolTheory};
use symbols::{Listed, Memory, SymbolId};

// An equal set of integers.
fn copy_set(alloc: Global, set: &IntSet) -> Result<IntSet, Memory>
    ensures { IfOk result (λ copy. copy ≡ set.now) }
{
    let intervals = Listed::from_slice(alloc, set.intervals.items())?;
    Ok(IntSet { intervals })
}

// A theory head over numbers.
fn theory(alloc: Global, variables: &[u32], theory: &SymbolTheory) -> Result<TheoryHead, Memory>
    requires { HasTheory (length variables.now) theory.now }
    ensures { IfOk result (λ made. made ≡ theory_by variables.now theory.now) }
{
    match theory {
        SymbolTheory::Relation(held) => {
            let made = relation(alloc, variables, held)?;
            Ok(TheoryHead::Relation(made))
        }
        SymbolTheory::Domain(numbers, variable) => {
            let numbers = copy_set(alloc, numbers)?;
            Ok(TheoryHead::Domain(numbers, number_of(variables, *variable)))
        }
        SymbolTheory::Distinct(held) => {
            let made = places(alloc, variables, held.items())?;
            Ok(TheoryHead::Distinct(made))
        }
        SymbolTheory::Disjoint(held) => {
            let made = places(alloc, variables, held.items())?;
            Ok(TheoryHead::Disjoint(made))
        }
    }
}

// Adds the literal of an atom, or nothing where the atom has no number.
#[tactic(auto, using(crate::proofs::NumberLemmas::literal_none, crate::proofs::NumberLemmas::literal_some))]
fn push_atom(body: &mut Listed<BodyLit>, number: u32, sign: bool) -> Result<(), Memory>
    ensures { OnOk result (body.new ≡ body.old ++ literal_from number sign) }
{
    if number == 0 {
        return Ok(());
    }
    body.push(BodyLit::Atom(number, sign))
}

// The literals of those atoms that have numbers.
#[tactic(auto, using(crate::proofs::NumberLemmas::append_three))]
fn atoms_of(
    alloc: Global,
    atoms: &[u32],
    literals: &[(SymbolId, bool)],
) -> Result<Listed<BodyLit>, Memory>
    requires { AllByRecursion (λ literal. literal.0 < length atoms.now) literals.now }
    ensures { IfOk result (λ made. made ≡ atoms_by atoms.now literals.now) }
{
    let mut made = Listed::new(alloc);
    for literal in literals {
        push_atom(&mut made, number_of(atoms, literal.0), literal.1)?;
    }
    Ok(made)
}

// Adds the relations of a body.
#[tactic(auto, using(crate::proofs::NumberLemmas::append_three))]
fn push_told(
    alloc: Global,
    body: &mut Listed<BodyLit>,
    variables: &[u32],
    told: &[(SymbolRelation, bool)],
) -> Result<(), Memory>
    requires { AllByRecursion (λ one. HasRelation (length variables.now) one.0) told.now }
    ensures { OnOk result (body.new ≡ body.old ++ map (told_by variables.now) told.now) }
{
    for one in told {
        let made = relation(alloc, variables, &one.0)?;
        body.push(BodyLit::Theory(made, one.1))?;
    }
    Ok(())
}

// Adds an element of a choice, or nothing where its atom has no number.
#[tactic(auto, using(crate::proofs::NumberLemmas::item_none, crate::proofs::NumberLemmas::item_some))]
fn push_item(
    alloc: Global,
    into: &mut Listed<ChoiceItem>,
    atoms: &[u32],
    item: &SymbolItem,
) -> Result<(), Memory>
    requires { HasItem (length atoms.now) item.now }
    ensures { OnOk result (into.new ≡ into.old ++ item_by atoms.now item.now) }
{
    let atom = number_of(atoms, item.atom);
    let condition = atoms_of(alloc, atoms, item.condition.items())?;
    if atom == 0 {
        return Ok(());
    }
    into.push(ChoiceItem { atom, condition })
}

// The elements of a choice.
#[tactic(auto, using(crate::proofs::NumberLemmas::append_three))]
fn items_of(
    alloc: Global,
    atoms: &[u32],
    items: &[SymbolItem],
) -> Result<Listed<ChoiceItem>, Memory>
    requires { AllByRecursion (HasItem (length atoms.now)) items.now }
    ensures { IfOk result (λ made. made ≡ items_by atoms.now items.now) }
{
    let mut made = Listed::new(alloc);
    for item in items {
        push_item(alloc, &mut made, atoms, item)?;
    }
    Ok(made)
}

// An atom as a head, or none where it has no number.
#[tactic(auto, using(crate::proofs::NumberLemmas::head_none, crate::proofs::NumberLemmas::head_some))]
fn atom_head(number: u32) -> GroundHead
    ensures { result ≡ head_from number }
{
    if number == 0 {
        return GroundHead::Nothing;
    }
    GroundHead::Atom(number)
}

// A head over numbers.
fn head_of(
    alloc: Global,
    atoms: &[u32],
    variables: &[u32],
    head: &SymbolHead,
) -> Result<GroundHead, Memory>
    requires { HasHead (length atoms.now) (length variables.now) head.now }
    ensures { IfOk result (λ made. made ≡ head_by atoms.now variables.now head.now) }
{
    match head {
        SymbolHead::Nothing => Ok(GroundHead::Nothing),
        SymbolHead::Atom(id) => Ok(atom_head(number_of(atoms, *id))),
        SymbolHead::Theory(held) => {
            let made = theory(alloc, variables, held)?;
            Ok(GroundHead::Theory(made))
        }
        SymbolHead::Choice(choice) => {
            let items = items_of(alloc, atoms, choice.items.items())?;
            Ok(GroundHead::Choice(GroundChoice {
                items,
                left: choice.left,
                right: choice.right,
            }))
        }
    }
}

// A rule over numbers.
fn rule_of(
    alloc: Global,
    atoms: &[u32],
    variables: &[u32],
    rule: &SymbolRule,
) -> Result<GroundRule, Memory>
    requires { HasRule (length atoms.now) (length variables.now) rule.now }
    ensures { IfOk result (λ made. made ≡ rule_by atoms.now variables.now rule.now) }
{
    let mut body = atoms_of(alloc, atoms, rule.atoms.items())?;
    push_told(alloc, &mut body, variables, rule.told.items())?;
    let head = head_of(alloc, atoms, variables, &rule.head)?;
    Ok(GroundRule { body, head })
}

// Rules over the numbers of their atoms and variables.
pub(crate) fn rules_of(
    alloc: Global,
    atoms: &[u32],
    variables: &[u32],
    rules: &[SymbolRule],
) -> Result<Listed<GroundRule>, Memory>
    requires { AllByRecursion (HasRule (length atoms.now) (length variables.now)) rules.now }
    ensures { IfOk result (λ made. made ≡ map (rule_by atoms.now variables.now) rules.now) }
{
    let mut made = Listed::new(alloc);
    for rule in rules {
        made.push(rule_of(alloc, atoms, variables, rule)?)?;
    }
    Ok(made)
}
