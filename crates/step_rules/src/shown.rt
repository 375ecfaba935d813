// Which rules show a list of literals to be a nogood.
ghost use Rattle.std.specs.Prelude.{◌≡◌, ℤ, Option};
ghost use Rattle.literals.specs.Nogoods.{IsNogood, Rises};
ghost use Rattle.linear_normal.specs.Numbering.{numbering};
ghost use Rattle.linear_normal.specs.Steps as spec;
ghost use Rattle.linear_normal.specs.Truth as truth;
ghost use Rattle.literals.specs.declared.reason.Step.TheVariants as s;
ghost use Rattle.step_rules.specs.inner.Sizes.{AreSized};

use crate::disjoint::{is_clash, is_overloaded};
use crate::distinct::is_overfull;
use crate::hole::{is_empty_range, is_hole};
use crate::loops::is_loop;
use crate::named::{are_named, numbered_in};
use crate::sum::{is_costly, is_sum};
use ground_model::GroundProgram;
use linear_normal::Numbered;
use literals::{Lit, Step};

// Whether a sum, or for 0 the objective, shows it.
#[tactic(auto, using(crate::proofs::StepLemmas::numbered_has, crate::proofs::StepLemmas::sum_above))]
fn shows_sum(
    program: &GroundProgram,
    numbered: &Numbered,
    cost: Option<i128>,
    lits: &[Lit],
    number: u32,
) -> bool
    requires sorted { Rises lits.now }
    requires sized { AreSized numbered.now }
    ensures { result ≡ spec.is_shown program.now numbered.now cost lits.now (s.Sum number) }
{
    if number == 0 {
        return is_costly(program.ends, lits, numbered, cost);
    }
    match numbered_in(numbered.constraints.items(), number) {
        Some(constraint) => is_sum(program.ends, lits, number, constraint),
        None => false,
    }
}

// Whether a domain, or for 0 the ends, shows it.
#[tactic(auto, using(crate::proofs::StepLemmas::hole_above))]
fn shows_hole(
    program: &GroundProgram,
    numbered: &Numbered,
    cost: Option<i128>,
    lits: &[Lit],
    number: u32,
) -> bool
    requires sorted { Rises lits.now }
    ensures { result ≡ spec.is_shown program.now numbered.now cost lits.now (s.Hole number) }
{
    if number == 0 {
        return is_empty_range(program.ends, lits, program.variables.len());
    }
    match numbered_in(numbered.constraints.items(), number) {
        Some(constraint) => is_hole(program.ends, lits, number, constraint),
        None => false,
    }
}

// Whether a distinct constraint shows it.
#[tactic(auto, using(crate::proofs::StepLemmas::numbered_has))]
fn shows_distinct(
    program: &GroundProgram,
    numbered: &Numbered,
    lits: &[Lit],
    number: u32,
    a: i64,
    b: i64,
) -> bool
    requires sorted { Rises lits.now }
    requires sized { AreSized numbered.now }
    ensures { result ≡ spec.is_overfull program.now.ends lits.now number a b (truth.numbered_in numbered.now.constraints number) }
{
    match numbered_in(numbered.constraints.items(), number) {
        Some(constraint) => is_overfull(program.ends, lits, number, a, b, constraint),
        None => false,
    }
}

// Whether too much work of a disjoint constraint shows it.
#[tactic(auto, using(crate::proofs::StepLemmas::numbered_has))]
fn shows_window(
    program: &GroundProgram,
    numbered: &Numbered,
    lits: &[Lit],
    number: u32,
    a: i64,
    b: i64,
) -> bool
    requires sorted { Rises lits.now }
    requires sized { AreSized numbered.now }
    ensures { result ≡ spec.is_overloaded program.now.ends lits.now number a b (truth.numbered_in numbered.now.constraints number) }
{
    match numbered_in(numbered.constraints.items(), number) {
        Some(constraint) => is_overloaded(program.ends, lits, number, a, b, constraint),
        None => false,
    }
}

// Whether two tuples of a disjoint constraint show it.
#[tactic(auto, using(crate::proofs::StepLemmas::numbered_has))]
fn shows_pair(
    program: &GroundProgram,
    numbered: &Numbered,
    lits: &[Lit],
    number: u32,
    i: u32,
    j: u32,
) -> bool
    requires sorted { Rises lits.now }
    requires sized { AreSized numbered.now }
    ensures { result ≡ spec.is_clash program.now.ends lits.now number i j (truth.numbered_in numbered.now.constraints number) }
{
    match numbered_in(numbered.constraints.items(), number) {
        Some(constraint) => is_clash(program.ends, lits, number, i, j, constraint),
        None => false,
    }
}

// Whether the step's rule shows the literals to be a nogood.
fn is_shown(
    program: &GroundProgram,
    numbered: &Numbered,
    cost: Option<i128>,
    lits: &[Lit],
    step: &Step,
) -> bool
    requires sorted { Rises lits.now }
    requires sized { AreSized numbered.now }
    ensures { result ≡ spec.is_shown program.now numbered.now cost lits.now step.now }
{
    match step {
        Step::Sum(number) => shows_sum(program, numbered, cost, lits, *number),
        Step::Distinct(number, a, b) => shows_distinct(program, numbered, lits, *number, *a, *b),
        Step::Window(number, a, b) => shows_window(program, numbered, lits, *number, *a, *b),
        Step::Pair(number, i, j) => shows_pair(program, numbered, lits, *number, *i, *j),
        Step::Loop(set) => is_loop(program, numbered, lits, set.items()),
        Step::Hole(number) => shows_hole(program, numbered, cost, lits, *number),
    }
}

// Whether the rule of the step shows the literals, each of which is of the program, to be a nogood.
pub(crate) fn is_valid_sized(
    program: &GroundProgram,
    numbered: &Numbered,
    cost: Option<i128>,
    lits: &[Lit],
    step: &Step,
) -> bool
    requires sorted { Rises lits.now }
    requires sized { AreSized numbered.now }
    ensures { result ≡ spec.is_valid program.now numbered.now cost lits.now step.now }
{
    are_named(program, numbered, lits) && is_shown(program, numbered, cost, lits, step)
}

/// Whether the step's rule shows the literals to be a nogood, where the last `o` line had this cost.
///
/// Every literal has to name something of the program. Bounds are found by halving: it takes time linear in
/// the literals and in the terms of the step's constraint, times the logarithm of the literals; for a loop see
/// `is_valid_loop`.
pub fn is_valid(
    program: &GroundProgram,
    numbered: &Numbered,
    cost: Option<i128>,
    lits: &[Lit],
    step: &Step,
) -> bool
    requires nogood { IsNogood lits.now }
    requires numbered { numbered.now ≡ numbering program.now }
    ensures { result ≡ spec.is_valid program.now (numbering program.now) cost lits.now step.now }
{
    is_valid_sized(program, numbered, cost, lits, step)
}

/// Whether the atoms of the set are supported only by each other, so that the literals are a nogood: what
/// `is_valid` says at `Step::Loop`, without a list of its own.
///
/// Every literal has to name something of the program. For each support it looks through the set, the
/// literals, and the support's body times the set.
pub fn is_valid_loop(
    program: &GroundProgram,
    numbered: &Numbered,
    lits: &[Lit],
    set: &[u32],
) -> bool
    ensures { (cost : Option ℤ) → result ≡ spec.is_valid program.now numbered.now cost lits.now (s.Loop set.now) }
{
    are_named(program, numbered, lits) && is_loop(program, numbered, lits, set)
}
