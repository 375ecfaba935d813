// The theory atoms of an instance, one by one.
ghost use Rattle.std.specs.Prelude.{◌≡◌, ◌++◌, ◌∷◌, [], List, length, map, All, IfOk, IfErr, Some};
ghost use Rattle.std.specs.List.{AllByRecursion};
ghost use Rattle.symbols.specs.Table.{IsFront};
ghost use Rattle.syntax_tree.specs.Outcome.{IsKnown};
ghost use Rattle.ground_model.specs.Members.{IsMember};
ghost use Rattle.match_index.specs.Atoms.{IsIndexOf};
ghost use Rattle.program_meaning.specs.Read.{ReadTheory};
ghost use Rattle.program_meaning.specs.Said.{value_in};
ghost use Rattle.row_tests.specs.Judged.{atoms_in};
ghost use Rattle.theory_plans.specs.Planned.{IsPlanOf, FitsPlan};
ghost use Rattle.collected_atoms.specs.Said.{IsKnownAtom};
ghost use Rattle.instance_atoms.specs.Collected.{ArePlansOf, FitsPlans, AreAtomsIn, IsStopOfAll};
ghost use Rattle.instance_atoms.specs.inner.Steps.{IsStep, IsPassed, IsWithAtom, IsWithStop, IsPassedOn, IsFinished, joined};

use crate::causes::first;
use match_index::Index;
use std::alloc::Global;
use symbols::{Listed, SymbolTable};
use syntax_tree::Value;
use theory_ground::{CollectStop, CollectedAtom, OutsideCause, collect};
use theory_plans::TheoryPlan;

// What the theory atoms so far come to.
#[derive(Drop)]
pub(crate) enum Step {
    Atoms(Listed<CollectedAtom>),
    Outside(OutsideCause),
}

/// The collected forms of all theory atoms of a rule whose plans are given, where the rule's global variables have these
/// values and the possible atoms are those of the index; or their first cause.
///
/// Each element has up to `most` instances.
pub fn collect_atoms<'a>(
    alloc: Global,
    plans: &[TheoryPlan<'a>],
    values: &[Value],
    index: &Index,
    symbols: &mut SymbolTable,
    most: usize,
) -> Result<Listed<CollectedAtom>, CollectStop>
    requires plans { ArePlansOf plans.now (length values.now) }
    requires values { All (λ value. IsKnown (length symbols.old) (Some value)) values.now }
    requires index { IsIndexOf symbols.old index.now }
    ensures collected { IfOk result (λ atoms. FitsPlans plans.now (length values.now) (λ rule. AreAtomsIn symbols.new (IsMember (atoms_in symbols.old index.now)) rule (map (value_in symbols.old) values.now) atoms)) }
    ensures stop { IfErr result (λ stop. FitsPlans plans.now (length values.now) (λ rule. IsStopOfAll (IsMember (atoms_in symbols.old index.now)) rule (map (value_in symbols.old) values.now) most stop)) }
    ensures known { IfOk result (AllByRecursion (IsKnownAtom symbols.new)) }
    ensures kept { IsFront symbols.old symbols.new }
{
    let mut step = Step::Atoms(Listed::new(alloc));
    for place in 0..plans.len() {
        match with_plan(alloc, step, &plans[place], values, index, symbols, most) {
            Ok(next) => step = next,
            Err(stop) => return Err(stop),
        }
    }
    finished(step)
}

// The theory atoms so far with one more.
fn with_plan<'a>(
    alloc: Global,
    step: Step,
    plan: &TheoryPlan<'a>,
    values: &[Value],
    index: &Index,
    symbols: &mut SymbolTable,
    most: usize,
) -> Result<Step, CollectStop>
    requires plan { IsPlanOf plan.now (length values.now) }
    requires values { All (λ value. IsKnown (length symbols.old) (Some value)) values.now }
    requires index { IsIndexOf symbols.old index.now }
    ensures more { IfOk result (λ next. FitsPlan plan.now (length values.now) (λ rule theory. (done : List ReadTheory) → IsStep symbols.old (IsMember (atoms_in symbols.old index.now)) rule (map (value_in symbols.old) values.now) done step → IsStep symbols.new (IsMember (atoms_in symbols.old index.now)) rule (map (value_in symbols.old) values.now) (done ++ theory ∷ []) next)) }
    ensures stop { IfErr result (λ stop. FitsPlan plan.now (length values.now) (λ rule theory. IsPassed (IsMember (atoms_in symbols.old index.now)) rule (map (value_in symbols.old) values.now) theory most stop)) }
    ensures kept { IsFront symbols.old symbols.new }
{
    match collect(alloc, plan, values, index, symbols, most) {
        Ok(atom) => with_atom(step, atom),
        Err(stop) => with_stop(step, stop),
    }
}

fn with_atom(step: Step, atom: CollectedAtom) -> Result<Step, CollectStop>
    ensures more { IfOk result (IsWithAtom step atom) }
    ensures stop { IfErr result (λ stop. stop ≡ CollectStop.Memory) }
{
    match step {
        Step::Atoms(mut atoms) => match atoms.push(atom) {
            Ok(()) => Ok(Step::Atoms(atoms)),
            Err(_) => Err(CollectStop::Memory),
        },
        Step::Outside(cause) => Ok(Step::Outside(cause)),
    }
}

fn with_stop(step: Step, stop: CollectStop) -> Result<Step, CollectStop>
    ensures more { IfOk result (IsWithStop step stop) }
    ensures stop { IfErr result (IsPassedOn stop) }
{
    match stop {
        CollectStop::TooMany => Err(CollectStop::TooMany),
        CollectStop::Outside(cause) => Ok(Step::Outside(with_cause(step, cause))),
        CollectStop::Memory => Err(CollectStop::Memory),
    }
}

fn with_cause(step: Step, cause: OutsideCause) -> OutsideCause
    ensures { result ≡ joined step cause }
{
    match step {
        Step::Atoms(_) => cause,
        Step::Outside(other) => first(other, cause),
    }
}

fn finished(step: Step) -> Result<Listed<CollectedAtom>, CollectStop>
    ensures { IsFinished step result }
{
    match step {
        Step::Atoms(atoms) => Ok(atoms),
        Step::Outside(cause) => Err(CollectStop::Outside(cause)),
    }
}
