// Rules: their bodies and their heads.
ghost use Rattle.std.specs.Prelude.{◌≡◌, true, IfOk};
ghost use Rattle.std.specs.List.{list_all};
ghost use Rattle.ground_model.specs.Sound.{is_sound_literal as literal_test, is_sound_condition as condition_test, is_sound_item as item_test, is_sound_theory as theory_test, is_sound_head as head_test, is_sound_rule as rule_test, are_sound_rules as rules_test};
ghost use Rattle.ground_parts.specs.inner.Totals.{IsClear};

use crate::numbers::is_number;
use crate::places::MOST;
use crate::relation::is_sound_relation;
use crate::scratch::Scratch;
use crate::span::are_sound_values;
use ground_model::{BodyLit, ChoiceItem, GroundHead, GroundRule, TheoryHead};
use std::alloc::Global;
use symbols::{Ends, Memory};

// How many symbols, atoms and variables a program has, and its ends.
#[derive(Clone, Copy)]
pub(crate) struct Sizes {
    pub(crate) symbols: usize,
    pub(crate) atoms: usize,
    pub(crate) variables: usize,
    pub(crate) ends: Ends,
}

// Whether every rule names atoms and variables of the program and stays within the bounds.
pub(crate) fn are_sound_rules(
    alloc: Global,
    sizes: &Sizes,
    rules: &[GroundRule],
    scratch: &mut Scratch,
) -> Result<bool, Memory>
    requires { IsClear sizes.now.variables scratch.old }
    ensures sound { IfOk result (λ yes. yes ≡ rules_test sizes.now.symbols sizes.now.atoms sizes.now.variables sizes.now.ends rules.now) }
    ensures clear { IfOk result (λ yes. yes ≡ true → IsClear sizes.now.variables scratch.new) }
{
    for rule in rules {
        if !is_sound_rule(alloc, sizes, rule, scratch)? {
            return Ok(false);
        }
    }
    Ok(true)
}

// Whether a rule does.
fn is_sound_rule(
    alloc: Global,
    sizes: &Sizes,
    rule: &GroundRule,
    scratch: &mut Scratch,
) -> Result<bool, Memory>
    requires { IsClear sizes.now.variables scratch.old }
    ensures sound { IfOk result (λ yes. yes ≡ rule_test sizes.now.symbols sizes.now.atoms sizes.now.variables sizes.now.ends rule.now) }
    ensures clear { IfOk result (λ yes. yes ≡ true → IsClear sizes.now.variables scratch.new) }
{
    if !is_sound_body(alloc, sizes, rule.body.items(), scratch)? {
        return Ok(false);
    }
    is_sound_head(alloc, sizes, &rule.head, scratch)
}

// Whether each literal of a body does.
fn is_sound_body(
    alloc: Global,
    sizes: &Sizes,
    body: &[BodyLit],
    scratch: &mut Scratch,
) -> Result<bool, Memory>
    requires { IsClear sizes.now.variables scratch.old }
    ensures sound { IfOk result (λ yes. yes ≡ list_all (literal_test sizes.now.symbols sizes.now.atoms sizes.now.variables) body.now) }
    ensures clear { IfOk result (λ yes. yes ≡ true → IsClear sizes.now.variables scratch.new) }
{
    for literal in body {
        if !is_sound_literal(alloc, sizes, literal, scratch)? {
            return Ok(false);
        }
    }
    Ok(true)
}

// Whether a literal does.
fn is_sound_literal(
    alloc: Global,
    sizes: &Sizes,
    literal: &BodyLit,
    scratch: &mut Scratch,
) -> Result<bool, Memory>
    requires { IsClear sizes.now.variables scratch.old }
    ensures sound { IfOk result (λ yes. yes ≡ literal_test sizes.now.symbols sizes.now.atoms sizes.now.variables literal.now) }
    ensures clear { IfOk result (λ yes. yes ≡ true → IsClear sizes.now.variables scratch.new) }
{
    match literal {
        BodyLit::Atom(atom, _) => Ok(is_number(sizes.atoms, *atom)),
        BodyLit::Theory(relation, _) => {
            is_sound_relation(alloc, sizes.symbols, sizes.variables, relation, scratch)
        }
    }
}

// Whether a literal of a condition is an atom of the program.
fn is_sound_condition(atoms: usize, literal: &BodyLit) -> bool
    ensures { result ≡ condition_test atoms literal.now }
{
    match literal {
        BodyLit::Atom(atom, _) => is_number(atoms, *atom),
        BodyLit::Theory(_, _) => false,
    }
}

// Whether each literal of a condition is.
fn are_sound_conditions(atoms: usize, condition: &[BodyLit]) -> bool
    ensures { result ≡ list_all (condition_test atoms) condition.now }
{
    condition
        .iter()
        .all(|literal| is_sound_condition(atoms, literal))
}

// Whether an element of a choice names atoms of the program.
fn is_sound_item(atoms: usize, item: &ChoiceItem) -> bool
    ensures { result ≡ item_test atoms item.now }
{
    is_number(atoms, item.atom) && are_sound_conditions(atoms, item.condition.items())
}

// Whether each element of a choice does.
fn are_sound_items(atoms: usize, items: &[ChoiceItem]) -> bool
    ensures { result ≡ list_all (item_test atoms) items.now }
{
    items.iter().all(|item| is_sound_item(atoms, item))
}

// Whether a theory head names variables of the program and stays within the bounds.
fn is_sound_theory(
    alloc: Global,
    sizes: &Sizes,
    theory: &TheoryHead,
    scratch: &mut Scratch,
) -> Result<bool, Memory>
    requires { IsClear sizes.now.variables scratch.old }
    ensures sound { IfOk result (λ yes. yes ≡ theory_test sizes.now.symbols sizes.now.variables sizes.now.ends theory.now) }
    ensures clear { IfOk result (λ yes. yes ≡ true → IsClear sizes.now.variables scratch.new) }
{
    let symbols = sizes.symbols;
    let variables = sizes.variables;
    match theory {
        TheoryHead::Relation(relation) => {
            is_sound_relation(alloc, symbols, variables, relation, scratch)
        }
        TheoryHead::Domain(numbers, variable) => {
            Ok(is_number(variables, *variable) && numbers.intervals.len() <= MOST)
        }
        TheoryHead::Distinct(places) => are_sound_values(
            alloc,
            symbols,
            variables,
            sizes.ends,
            places.items(),
            &mut scratch.seen,
        ),
        TheoryHead::Disjoint(places) => are_sound_values(
            alloc,
            symbols,
            variables,
            sizes.ends,
            places.items(),
            &mut scratch.seen,
        ),
    }
}

// Whether a head does.
fn is_sound_head(
    alloc: Global,
    sizes: &Sizes,
    head: &GroundHead,
    scratch: &mut Scratch,
) -> Result<bool, Memory>
    requires { IsClear sizes.now.variables scratch.old }
    ensures sound { IfOk result (λ yes. yes ≡ head_test sizes.now.symbols sizes.now.atoms sizes.now.variables sizes.now.ends head.now) }
    ensures clear { IfOk result (λ yes. yes ≡ true → IsClear sizes.now.variables scratch.new) }
{
    match head {
        GroundHead::Nothing => Ok(true),
        GroundHead::Atom(atom) => Ok(is_number(sizes.atoms, *atom)),
        GroundHead::Theory(theory) => is_sound_theory(alloc, sizes, theory, scratch),
        GroundHead::Choice(choice) => Ok(are_sound_items(sizes.atoms, choice.items.items())),
    }
}
