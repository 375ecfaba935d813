// The reduct of rules by a set of atoms and the values of the variables.
ghost use Rattle.std.specs.Prelude.{◌≡◌, ◌<◌, ◌-◌, [], ◌∷◌, ◌++◌, length, map, filter, OnOk, IfOk};
ghost use Rattle.std.specs.List.{AllByRecursion, list_all};
ghost use Rattle.ground_model.specs.Reduct.{positives, rest_holds as rest_test, kept_of, reduct as reduct_of};
ghost use Rattle.ground_model.specs.Sizes.{IsModest, IsCounted, IsReadable, IsReadableItem, IsReadableRule};
ghost use Rattle.ground_model.specs.Ways.{choice_way, head_ways};
ghost use Rattle.ground_model.specs.World.{world_by};

use crate::rule::{BodyLit, ChoiceItem, GroundHead, GroundRule};
use crate::value::relation_holds;
use definite_rules::DefiniteRules;
use std::alloc::Global;
use symbols::Memory;

// Whether a literal holds; a positive atom is passed over.
fn rest_holds(literal: &BodyLit, flags: &[bool], values: &[i32]) -> bool
    requires flags { 0 < length flags.now }
    requires literal { IsReadable (length flags.now - 1) (length values.now) literal.now }
    requires values { AllByRecursion IsModest values.now }
    ensures { result ≡ rest_test (world_by flags.now values.now) literal.now }
{
    match literal {
        BodyLit::Atom(_, true) => true,
        BodyLit::Atom(atom, false) => !flags[*atom as usize],
        BodyLit::Theory(relation, true) => relation_holds(relation, values),
        BodyLit::Theory(relation, false) => !relation_holds(relation, values),
    }
}

// Whether all but the positive atoms of a body hold.
fn body_rest_holds(body: &[BodyLit], flags: &[bool], values: &[i32]) -> bool
    requires flags { 0 < length flags.now }
    requires body { AllByRecursion (IsReadable (length flags.now - 1) (length values.now)) body.now }
    requires values { AllByRecursion IsModest values.now }
    ensures { result ≡ list_all (rest_test (world_by flags.now values.now)) body.now }
{
    for literal in body {
        if !rest_holds(literal, flags, values) {
            return false;
        }
    }
    true
}

// Adds the positive atoms of a body, counted from 0.
fn push_positives(into: &mut Vec<u32>, body: &[BodyLit]) -> Result<(), Memory>
    requires { AllByRecursion IsCounted body.now }
    ensures { OnOk result (into.new.items ≡ into.old.items ++ positives body.now) }
{
    for literal in body {
        if let BodyLit::Atom(atom, true) = literal {
            into.push(*atom - 1)?;
        }
    }
    Ok(())
}

// Adds the rule of a body for an atom, as the reduct has it.
fn add_head(
    alloc: Global,
    into: &mut DefiniteRules,
    atom: u32,
    body: &[BodyLit],
) -> Result<(), Memory>
    requires atom { 0 < atom }
    requires body { AllByRecursion IsCounted body.now }
    ensures { OnOk result (into.new ≡ into.old ++ record { head = atom - 1; body = positives body.now } ∷ []) }
{
    let mut atoms = Vec::new(alloc);
    push_positives(&mut atoms, body)?;
    into.push(atom - 1, &atoms)
}

// Adds the rule of a body and a condition for an atom, as the reduct has it.
#[tactic(auto, using(crate::proofs::KeptLemmas::positives_append))]
fn add_element(
    alloc: Global,
    into: &mut DefiniteRules,
    atom: u32,
    body: &[BodyLit],
    condition: &[BodyLit],
) -> Result<(), Memory>
    requires atom { 0 < atom }
    requires body { AllByRecursion IsCounted body.now }
    requires condition { AllByRecursion IsCounted condition.now }
    ensures { OnOk result (into.new ≡ into.old ++ record { head = atom - 1; body = positives (body.now ++ condition.now) } ∷ []) }
{
    let mut atoms = Vec::new(alloc);
    push_positives(&mut atoms, body)?;
    push_positives(&mut atoms, condition)?;
    into.push(atom - 1, &atoms)
}

// Adds what the reduct keeps of an element of a choice.
#[tactic(auto, using(crate::proofs::KeptLemmas::all_parts_equal, crate::proofs::KeptLemmas::counted))]
fn add_item(
    alloc: Global,
    into: &mut DefiniteRules,
    body: &[BodyLit],
    item: &ChoiceItem,
    flags: &[bool],
    values: &[i32],
) -> Result<(), Memory>
    requires flags { 0 < length flags.now }
    requires body { AllByRecursion (IsReadable (length flags.now - 1) (length values.now)) body.now }
    requires item { IsReadableItem (length flags.now - 1) (length values.now) item.now }
    requires values { AllByRecursion IsModest values.now }
    ensures { OnOk result (into.new ≡ into.old ++ kept_of (world_by flags.now values.now) (choice_way body.now item.now ∷ [])) }
{
    let condition = item.condition.items();
    if flags[item.atom as usize]
        && body_rest_holds(body, flags, values)
        && body_rest_holds(condition, flags, values)
    {
        add_element(alloc, into, item.atom, body, condition)
    } else {
        Ok(())
    }
}

// Adds what the reduct keeps of the elements of a choice.
#[tactic(auto, using(crate::proofs::KeptLemmas::kept_append))]
fn add_items(
    alloc: Global,
    into: &mut DefiniteRules,
    body: &[BodyLit],
    items: &[ChoiceItem],
    flags: &[bool],
    values: &[i32],
) -> Result<(), Memory>
    requires flags { 0 < length flags.now }
    requires body { AllByRecursion (IsReadable (length flags.now - 1) (length values.now)) body.now }
    requires items { AllByRecursion (IsReadableItem (length flags.now - 1) (length values.now)) items.now }
    requires values { AllByRecursion IsModest values.now }
    ensures { OnOk result (into.new ≡ into.old ++ kept_of (world_by flags.now values.now) (map (choice_way body.now) items.now)) }
{
    for item in items {
        add_item(alloc, into, body, item, flags, values)?;
    }
    Ok(())
}

// Adds what the reduct keeps of a rule.
#[tactic(auto, using(crate::proofs::KeptLemmas::counted))]
fn add_rule(
    alloc: Global,
    into: &mut DefiniteRules,
    rule: &GroundRule,
    flags: &[bool],
    values: &[i32],
) -> Result<(), Memory>
    requires flags { 0 < length flags.now }
    requires rule { IsReadableRule (length flags.now - 1) (length values.now) rule.now }
    requires values { AllByRecursion IsModest values.now }
    ensures { OnOk result (into.new ≡ into.old ++ kept_of (world_by flags.now values.now) (head_ways rule.now.body rule.now.head)) }
{
    let body = rule.body.items();
    match &rule.head {
        GroundHead::Atom(atom) => {
            if body_rest_holds(body, flags, values) {
                add_head(alloc, into, *atom, body)
            } else {
                Ok(())
            }
        }
        GroundHead::Choice(choice) => {
            add_items(alloc, into, body, choice.items.items(), flags, values)
        }
        GroundHead::Nothing => Ok(()),
        GroundHead::Theory(_) => Ok(()),
    }
}

// The reduct of the rules, over atoms that are counted from 0.
#[tactic(auto, using(crate::proofs::KeptLemmas::kept_append))]
pub(crate) fn reduct(
    alloc: Global,
    rules: &[GroundRule],
    flags: &[bool],
    values: &[i32],
) -> Result<DefiniteRules, Memory>
    requires flags { 0 < length flags.now }
    requires rules { AllByRecursion (IsReadableRule (length flags.now - 1) (length values.now)) rules.now }
    requires values { AllByRecursion IsModest values.now }
    ensures { IfOk result (λ definite. definite ≡ reduct_of rules.now (world_by flags.now values.now)) }
{
    let mut definite = DefiniteRules::new(alloc);
    for rule in rules {
        add_rule(alloc, &mut definite, rule, flags, values)?;
    }
    Ok(definite)
}
