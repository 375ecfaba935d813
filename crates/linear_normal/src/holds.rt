// Whether a literal is true in an answer.
ghost use Rattle.std.specs.Prelude.{◌≡◌, ◌↔◌, ◌≤◌, ◌^◌, true, length, unsigned_abs, IsTrue};
ghost use Rattle.std.specs.List.{list_any};
ghost use Rattle.literals.specs.Truths.{lit_true, all_true, signed as signed_test};
ghost use Rattle.ground_model.specs.Answers.{ascend_from, IsNumbered};
ghost use Rattle.ground_model.specs.World.{world_of};
ghost use Rattle.linear_normal.specs.Holds.{IsNumbering, IsSized, AreSized};
ghost use Rattle.linear_normal.specs.Truth.{item_value, items_value, constraint_truth, truths_within, truths_in};

use crate::constraint::{Constraint, Item};
use crate::numbered::Numbered;
use crate::values::{all_differ, has_atom, lies_within, none_overlap, term_value, variable_value};
use ground_model::Answer;
use literals::Lit;

// How deep constraints and bodies are nested: a bound has two sums of tallies of bodies, whose relations
// have two sums.
const DEPTH: u32 = 6;

impl Numbered {
    /// Whether a literal is true in an answer as a world, where this numbers some ground program.
    ///
    /// It takes time linear in what the literal's constraint or body names, but for the logarithm of looking
    /// an atom up, and for `&distinct` and `&disjoint` time quadratic in the tuples, since nothing is
    /// allocated. A number that stands nowhere is false, and a variable without a value has 0.
    pub fn holds(&self, answer: &Answer, lit: Lit) -> bool
        requires numbering { IsNumbering self.now }
        requires ascending { ascend_from 0 answer.now.atoms ≡ true }
        ensures { result ≡ lit_true (truths_in self.now (world_of answer.now)) lit }
    {
        lit_within(self, answer, DEPTH, lit)
    }
}

// A truth, or its opposite where the sign is false.
fn signed(sign: bool, truth: bool) -> bool
    ensures { result ≡ signed_test sign truth }
{
    if sign { truth } else { !truth }
}

// Whether a number is one of so many, counted from 1.
fn is_number(last: usize, number: u32) -> bool
    ensures { IsTrue result ↔ IsNumbered last number }
{
    0 < number && number as usize <= last
}

// Whether a literal is true where nothing is nested deeper than so many times.
#[cycle(within)]
fn lit_within(numbered: &Numbered, answer: &Answer, depth: u32, lit: Lit) -> bool
    requires sized { AreSized numbered.now }
    requires ascending { ascend_from 0 answer.now.atoms ≡ true }
    ensures { result ≡ lit_true (truths_within depth numbered.now (world_of answer.now)) lit }
{
    match lit {
        Lit::Atom(atom, sign) => signed(sign, has_atom(answer.atoms.items(), atom)),
        Lit::Body(body, sign) => signed(sign, body_within(numbered, answer, depth, body)),
        Lit::Constraint(number, sign) => {
            signed(sign, constraint_within(numbered, answer, depth, number))
        }
        Lit::AtMost(variable, most) => variable_value(answer.values.items(), variable) <= most,
        Lit::AtLeast(variable, least) => least <= variable_value(answer.values.items(), variable),
    }
}

// Whether all literals are true.
#[cycle(within)]
fn all_within(numbered: &Numbered, answer: &Answer, depth: u32, lits: &[Lit]) -> bool
    requires sized { AreSized numbered.now }
    requires ascending { ascend_from 0 answer.now.atoms ≡ true }
    ensures { result ≡ all_true (truths_within depth numbered.now (world_of answer.now)) lits.now }
{
    for lit in lits {
        if !lit_within(numbered, answer, depth, *lit) {
            return false;
        }
    }
    true
}

// Whether a body is true.
#[cycle(within)]
fn body_within(numbered: &Numbered, answer: &Answer, depth: u32, body: u32) -> bool
    requires sized { AreSized numbered.now }
    requires ascending { ascend_from 0 answer.now.atoms ≡ true }
    ensures { result ≡ (truths_within depth numbered.now (world_of answer.now)).body body }
{
    let bodies = numbered.bodies.items();
    if depth == 0 || !is_number(bodies.len(), body) {
        return false;
    }
    let conjunction = &bodies[body as usize - 1];
    all_within(numbered, answer, depth - 1, conjunction.lits.items())
}

// Whether one of the bodies is true.
#[cycle(within)]
fn some_within(numbered: &Numbered, answer: &Answer, depth: u32, bodies: &[u32]) -> bool
    requires sized { AreSized numbered.now }
    requires ascending { ascend_from 0 answer.now.atoms ≡ true }
    ensures { result ≡ list_any (truths_within depth numbered.now (world_of answer.now)).body bodies.now }
{
    for body in bodies {
        if body_within(numbered, answer, depth, *body) {
            return true;
        }
    }
    false
}

// Whether the constraint of a number is true.
#[cycle(within)]
fn constraint_within(numbered: &Numbered, answer: &Answer, depth: u32, number: u32) -> bool
    requires sized { AreSized numbered.now }
    requires ascending { ascend_from 0 answer.now.atoms ≡ true }
    ensures { result ≡ (truths_within depth numbered.now (world_of answer.now)).constraint number }
{
    let constraints = numbered.constraints.items();
    if depth == 0 || !is_number(constraints.len(), number) {
        return false;
    }
    says_within(
        numbered,
        answer,
        depth - 1,
        &constraints[number as usize - 1],
    )
}

// Whether what a constraint says is true.
#[cycle(within)]
#[tactic(auto, using(crate::proofs::WithinLemmas::value_within))]
fn says_within(numbered: &Numbered, answer: &Answer, depth: u32, constraint: &Constraint) -> bool
    requires sized { AreSized numbered.now }
    requires constraint { IsSized constraint.now }
    requires ascending { ascend_from 0 answer.now.atoms ≡ true }
    ensures { result ≡ constraint_truth (truths_within depth numbered.now (world_of answer.now)) constraint.now }
{
    let values = answer.values.items();
    match constraint {
        Constraint::AtMost(items, most) => {
            sum_within(numbered, answer, depth, items.items()) <= i128::from(*most)
        }
        Constraint::Both(one, other) => {
            constraint_within(numbered, answer, depth, *one)
                && constraint_within(numbered, answer, depth, *other)
        }
        Constraint::Either(one, other) => {
            constraint_within(numbered, answer, depth, *one)
                || constraint_within(numbered, answer, depth, *other)
        }
        Constraint::Domain(variable, set) => {
            lies_within(set.intervals.items(), variable_value(values, *variable))
        }
        Constraint::Distinct(places) => all_differ(places.items(), values),
        Constraint::Disjoint(places) => none_overlap(places.items(), values),
        Constraint::Tally(bodies) => some_within(numbered, answer, depth, bodies.items()),
    }
}

// The sum of items.
#[cycle(within)]
fn sum_within(numbered: &Numbered, answer: &Answer, depth: u32, items: &[Item]) -> i128
    requires sized { AreSized numbered.now }
    requires few { length items.now ≤ 2 ^ 32 }
    requires ascending { ascend_from 0 answer.now.atoms ≡ true }
    ensures { result ≡ items_value (truths_within depth numbered.now (world_of answer.now)) items.now }
{
    let mut sum = 0;
    for item in items {
        sum += item_within(numbered, answer, depth, *item);
    }
    sum
}

// What an item counts.
#[cycle(within)]
#[tactic(auto, using(crate::proofs::WithinLemmas::value_within))]
fn item_within(numbered: &Numbered, answer: &Answer, depth: u32, item: Item) -> i128
    requires sized { AreSized numbered.now }
    requires ascending { ascend_from 0 answer.now.atoms ≡ true }
    ensures value { result ≡ item_value (truths_within depth numbered.now (world_of answer.now)) item }
    ensures size { unsigned_abs result ≤ 2 ^ 94 }
{
    match item {
        Item::Value(variable, coefficient) => {
            term_value(coefficient, variable_value(answer.values.items(), variable))
        }
        Item::Truth(number, coefficient) => {
            let counted = constraint_within(numbered, answer, depth, number);
            term_value(coefficient, i32::from(counted))
        }
    }
}
