// Rules: their bodies, what they need of the table, and their duties.
ghost use Rattle.std.specs.Prelude.{◌≡◌, ◌+◌, ◌++◌, map, length, List, ℕ, OnOk};
ghost use Rattle.std.specs.List.{AllByRecursion};
ghost use Rattle.literals.specs.Lits.{IsLit};
ghost use Rattle.ground_model.specs.declared.rule.BodyLit.{BodyLit};
ghost use Rattle.ground_model.specs.declared.rule.GroundHead.TheVariants as h;
ghost use Rattle.linear_normal.specs.Contents.{SomeTrue};
ghost use Rattle.linear_normal.specs.Bodies.{is_bounded as bounded_test, selections as selections_of, selecting_body, head_bodies};
ghost use Rattle.linear_normal.specs.Demands.{bounds_of, head_demands, rule_demands};
ghost use Rattle.linear_normal.specs.Numbering.{head_duties, head_supports};
ghost use Rattle.linear_normal.specs.inner.Tables.{Gives, IsSoundItem, IsSoundHead, IsSoundRule, HasAtoms, HasAtomsIn, Adds, AddsRule, bound_demands, bound_duties};

use crate::body::{add_element_bodies, add_literals, add_selecting_bodies, conjunction};
use crate::choice::add_bounds;
use crate::constraint::Constraint;
use crate::numbered::{Conjunction, Duty, Support};
use crate::relation::add_theory;
use crate::selections::selections;
use crate::supports::add_supports;
use crate::table::{all_numbered, number_at};
use ground_model::{GroundChoice, GroundHead, GroundRule};
use indexmap::IndexSet;
use literals::Lit;
use std::alloc::Global;
use symbols::{Listed, Memory};

// Whether a choice has a bound.
fn is_bounded(choice: &GroundChoice) -> bool
    ensures { result ≡ bounded_test choice.now }
{
    choice.left.is_some() || choice.right.is_some()
}

// Adds what a choice with a bound needs: its selecting bodies, its tallies and its bounds.
fn add_bounded(
    alloc: Global,
    first: u32,
    own: &[Lit],
    choice: &GroundChoice,
    keys: &mut IndexSet<Constraint>,
    bodies: &mut Listed<Conjunction>,
    duties: &mut Listed<Duty>,
) -> Result<(), Memory>
    requires own { AllByRecursion IsLit own.now }
    requires items { AllByRecursion IsSoundItem choice.now.items }
    ensures { OnOk result ((atoms variables : ℕ) (body : List BodyLit) → length bodies.old ≡ first + length choice.now.items → HasAtoms atoms choice.now.items
        → Gives keys.old.keys keys.new.keys
        (map SomeTrue (selections_of atoms first choice.now.items) ++ bound_demands (selections_of atoms first choice.now.items) (bounds_of choice.now))
        (λ later. Adds later variables own.now body (map (selecting_body body) choice.now.items) (bound_duties later (selections_of atoms first choice.now.items) first (bounds_of choice.now))
        bodies.old bodies.new duties.old duties.new)) }
{
    let items = choice.items.items();
    let before = bodies.len();
    add_selecting_bodies(alloc, own, items, bodies)?;
    all_numbered(bodies.len())?;
    let rows = selections(alloc, before + 1, items)?;
    add_bounds(alloc, first, keys, &rows, choice.left, choice.right, duties)?;
    Ok(())
}

// Adds what a choice needs: its elements' bodies, and what its bounds take.
fn add_choice(
    alloc: Global,
    first: u32,
    own: &[Lit],
    choice: &GroundChoice,
    keys: &mut IndexSet<Constraint>,
    bodies: &mut Listed<Conjunction>,
    duties: &mut Listed<Duty>,
) -> Result<(), Memory>
    requires own { AllByRecursion IsLit own.now }
    requires items { AllByRecursion IsSoundItem choice.now.items }
    ensures { OnOk result ((atoms variables : ℕ) (body : List BodyLit) → length bodies.old ≡ first → HasAtoms atoms choice.now.items
        → Gives keys.old.keys keys.new.keys (head_demands atoms variables first (h.Choice choice.now))
        (λ later. Adds later variables own.now body (head_bodies body (h.Choice choice.now)) (head_duties later atoms variables first (h.Choice choice.now))
        bodies.old bodies.new duties.old duties.new)) }
{
    add_element_bodies(alloc, own, choice.items.items(), bodies)?;
    if is_bounded(choice) {
        add_bounded(alloc, first, own, choice, keys, bodies, duties)?;
        Ok(())
    } else {
        Ok(())
    }
}

// Adds what a head needs, and its duties.
fn add_head(
    alloc: Global,
    variables: usize,
    first: u32,
    own: &[Lit],
    head: &GroundHead,
    keys: &mut IndexSet<Constraint>,
    bodies: &mut Listed<Conjunction>,
    duties: &mut Listed<Duty>,
) -> Result<(), Memory>
    requires own { AllByRecursion IsLit own.now }
    requires head { IsSoundHead variables head.now }
    ensures { OnOk result ((atoms : ℕ) (body : List BodyLit) → length bodies.old ≡ first → HasAtomsIn atoms head.now
        → Gives keys.old.keys keys.new.keys (head_demands atoms variables first head.now)
        (λ later. Adds later variables own.now body (head_bodies body head.now) (head_duties later atoms variables first head.now)
        bodies.old bodies.new duties.old duties.new)) }
{
    match head {
        GroundHead::Nothing => {
            let body = first;
            duties.push(Duty { body, head: None })?;
            Ok(())
        }
        GroundHead::Atom(atom) => {
            let head = Some(Lit::Atom(*atom, true));
            duties.push(Duty { body: first, head })?;
            Ok(())
        }
        GroundHead::Theory(theory) => {
            let number = add_theory(alloc, variables, keys, theory)?;
            let head = Some(Lit::Constraint(number, true));
            duties.push(Duty { body: first, head })?;
            Ok(())
        }
        GroundHead::Choice(choice) => {
            add_choice(alloc, first, own, choice, keys, bodies, duties)?;
            Ok(())
        }
    }
}

// Adds a rule's bodies, what it needs, its supports and its duties.
pub(crate) fn add_rule(
    alloc: Global,
    variables: usize,
    rule: &GroundRule,
    keys: &mut IndexSet<Constraint>,
    bodies: &mut Listed<Conjunction>,
    supports: &mut Listed<Support>,
    duties: &mut Listed<Duty>,
) -> Result<(), Memory>
    requires { IsSoundRule variables rule.now }
    ensures supports { OnOk result (supports.new ≡ supports.old ++ head_supports (length bodies.old + 1) rule.now.head) }
    ensures gives { OnOk result ((atoms : ℕ) → HasAtomsIn atoms rule.now.head
        → Gives keys.old.keys keys.new.keys (rule_demands atoms variables (record { first = length bodies.old + 1; rule = rule.now }))
        (λ later. AddsRule later atoms variables rule.now bodies.old bodies.new duties.old duties.new)) }
{
    let own = add_literals(alloc, variables, keys, rule.body.items())?;
    let next = conjunction(alloc, &own)?;
    let first = number_at(bodies.len())?;
    add_supports(first, &rule.head, supports)?;
    bodies.push(next)?;
    add_head(
        alloc, variables, first, &own, &rule.head, keys, bodies, duties,
    )?;
    Ok(())
}
