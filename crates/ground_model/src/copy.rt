// Copies of ground programs, which own their lists.
ghost use Rattle.std.specs.Prelude.{◌≡◌, IfOk};

use crate::int_set::IntSet;
use crate::linear::{Linear, Place, Relation};
use crate::program::GroundProgram;
use crate::rule::{BodyLit, ChoiceItem, GroundChoice, GroundHead, GroundRule, TheoryHead};
use std::alloc::Global;
use symbols::{Listed, Memory};

/// An equal program, ids included.
pub fn copy_ground(alloc: Global, program: &GroundProgram) -> Result<GroundProgram, Memory>
    ensures { IfOk result (λ copy. copy ≡ program.now) }
{
    let rules = copy_rules(alloc, program.rules.items())?;
    let smaller = copy_places(alloc, program.smaller.items())?;
    let larger = copy_places(alloc, program.larger.items())?;
    let symbols = program.symbols.copy_table()?;
    let atoms = Listed::from_slice(alloc, program.atoms.items())?;
    let variables = Listed::from_slice(alloc, program.variables.items())?;
    let shown_atoms = Listed::from_slice(alloc, program.shown_atoms.items())?;
    let shown_variables = Listed::from_slice(alloc, program.shown_variables.items())?;
    Ok(GroundProgram {
        ends: program.ends,
        atoms,
        variables,
        rules,
        has_objective: program.has_objective,
        smaller,
        larger,
        shown_atoms,
        shown_variables,
        symbols,
    })
}

fn copy_linear(alloc: Global, linear: &Linear) -> Result<Linear, Memory>
    ensures { IfOk result (λ copy. copy ≡ linear.now) }
{
    let pairs = Listed::from_slice(alloc, linear.pairs.items())?;
    Ok(Linear {
        pairs,
        constant: linear.constant,
    })
}

fn copy_place(alloc: Global, place: &Place) -> Result<Place, Memory>
    ensures { IfOk result (λ copy. copy ≡ place.now) }
{
    let linear = copy_linear(alloc, &place.linear)?;
    let rest = Listed::from_slice(alloc, place.rest.items())?;
    Ok(Place {
        linear,
        duration: place.duration,
        rest,
    })
}

fn copy_places(alloc: Global, places: &[Place]) -> Result<Listed<Place>, Memory>
    ensures { IfOk result (λ copy. copy ≡ places.now) }
{
    let mut copy = Listed::new(alloc);
    for place in places {
        copy.push(copy_place(alloc, place)?)?;
    }
    Ok(copy)
}

fn copy_relation(alloc: Global, relation: &Relation) -> Result<Relation, Memory>
    ensures { IfOk result (λ copy. copy ≡ relation.now) }
{
    let elements = copy_places(alloc, relation.elements.items())?;
    let right = copy_linear(alloc, &relation.right)?;
    Ok(Relation {
        elements,
        rel: relation.rel,
        right,
    })
}

fn copy_set(alloc: Global, set: &IntSet) -> Result<IntSet, Memory>
    ensures { IfOk result (λ copy. copy ≡ set.now) }
{
    let intervals = Listed::from_slice(alloc, set.intervals.items())?;
    Ok(IntSet { intervals })
}

fn copy_literal(alloc: Global, literal: &BodyLit) -> Result<BodyLit, Memory>
    ensures { IfOk result (λ copy. copy ≡ literal.now) }
{
    match literal {
        BodyLit::Atom(atom, sign) => Ok(BodyLit::Atom(*atom, *sign)),
        BodyLit::Theory(relation, sign) => {
            let relation = copy_relation(alloc, relation)?;
            Ok(BodyLit::Theory(relation, *sign))
        }
    }
}

fn copy_body(alloc: Global, body: &[BodyLit]) -> Result<Listed<BodyLit>, Memory>
    ensures { IfOk result (λ copy. copy ≡ body.now) }
{
    let mut copy = Listed::new(alloc);
    for literal in body {
        copy.push(copy_literal(alloc, literal)?)?;
    }
    Ok(copy)
}

fn copy_theory(alloc: Global, theory: &TheoryHead) -> Result<TheoryHead, Memory>
    ensures { IfOk result (λ copy. copy ≡ theory.now) }
{
    match theory {
        TheoryHead::Relation(relation) => {
            let relation = copy_relation(alloc, relation)?;
            Ok(TheoryHead::Relation(relation))
        }
        TheoryHead::Domain(numbers, variable) => {
            let numbers = copy_set(alloc, numbers)?;
            Ok(TheoryHead::Domain(numbers, *variable))
        }
        TheoryHead::Distinct(places) => {
            let places = copy_places(alloc, places.items())?;
            Ok(TheoryHead::Distinct(places))
        }
        TheoryHead::Disjoint(places) => {
            let places = copy_places(alloc, places.items())?;
            Ok(TheoryHead::Disjoint(places))
        }
    }
}

fn copy_item(alloc: Global, item: &ChoiceItem) -> Result<ChoiceItem, Memory>
    ensures { IfOk result (λ copy. copy ≡ item.now) }
{
    let condition = copy_body(alloc, item.condition.items())?;
    Ok(ChoiceItem {
        atom: item.atom,
        condition,
    })
}

fn copy_items(alloc: Global, items: &[ChoiceItem]) -> Result<Listed<ChoiceItem>, Memory>
    ensures { IfOk result (λ copy. copy ≡ items.now) }
{
    let mut copy = Listed::new(alloc);
    for item in items {
        copy.push(copy_item(alloc, item)?)?;
    }
    Ok(copy)
}

fn copy_head(alloc: Global, head: &GroundHead) -> Result<GroundHead, Memory>
    ensures { IfOk result (λ copy. copy ≡ head.now) }
{
    match head {
        GroundHead::Nothing => Ok(GroundHead::Nothing),
        GroundHead::Atom(atom) => Ok(GroundHead::Atom(*atom)),
        GroundHead::Theory(theory) => {
            let theory = copy_theory(alloc, theory)?;
            Ok(GroundHead::Theory(theory))
        }
        GroundHead::Choice(choice) => {
            let items = copy_items(alloc, choice.items.items())?;
            Ok(GroundHead::Choice(GroundChoice {
                items,
                left: choice.left,
                right: choice.right,
            }))
        }
    }
}

fn copy_rule(alloc: Global, rule: &GroundRule) -> Result<GroundRule, Memory>
    ensures { IfOk result (λ copy. copy ≡ rule.now) }
{
    let body = copy_body(alloc, rule.body.items())?;
    let head = copy_head(alloc, &rule.head)?;
    Ok(GroundRule { body, head })
}

fn copy_rules(alloc: Global, rules: &[GroundRule]) -> Result<Listed<GroundRule>, Memory>
    ensures { IfOk result (λ copy. copy ≡ rules.now) }
{
    let mut copy = Listed::new(alloc);
    for rule in rules {
        copy.push(copy_rule(alloc, rule)?)?;
    }
    Ok(copy)
}
