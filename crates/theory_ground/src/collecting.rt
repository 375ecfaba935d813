// A theory atom under an instance of its rule.
ghost use Rattle.std.specs.Prelude.{◌≡◌, ℕ, List, length, map, All, IfOk, IfErr, Err, Some, IsTrue};
ghost use Rattle.symbols.specs.Symbol.{Symbol};
ghost use Rattle.symbols.specs.Table.{IsFront};
ghost use Rattle.syntax_tree.specs.declared.literal.Literal.TheViews.{out-TheoryAtom};
ghost use Rattle.syntax_tree.specs.Outcome.{IsKnown};
ghost use Rattle.ground_model.specs.Members.{IsMember};
ghost use Rattle.match_index.specs.Atoms.{IsIndexOf};
ghost use Rattle.program_meaning.specs.Said.{value_in};
ghost use Rattle.program_meaning.specs.Instance.{bound_in};
ghost use Rattle.program_meaning.specs.Theory.{guard_over};
ghost use Rattle.row_tests.specs.Judged.{atoms_in};
ghost use Rattle.theory_plans.specs.Planned.{IsPlanOf, FitsPlan};
ghost use Rattle.collected_atoms.specs.Said.{IsAtomIn, IsKnownAtom};
ghost use Rattle.collected_atoms.specs.Gathering.{AreKnownPlaces, IsKnownGuard, IsGuardJudged};
ghost use Rattle.theory_ground.specs.Collected.{IsStopOf};
ghost use Rattle.theory_ground.specs.inner.Rows.{IsWhole, IsStopOfGathering, IsStopOfGuard, IsStopOfAtom};

use crate::elements::{GatherStop, gather_elements};
use collected_atoms::{
    AtomStop, CollectedAtom, Gathered, JudgedGuard, OutsideCause, collected_atom,
};
use collected_elements::{ElementStop, judge_guard};
use instance_search::binding_of;
use match_index::Index;
use std::alloc::Global;
use symbols::SymbolTable;
use syntax_tree::{Guard, Value};
use theory_plans::TheoryPlan;

/// Why there is no collected form.
#[derive(Clone, Copy, Debug, PartialEq, Eq)]
pub enum CollectStop {
    /// There are more element instances than were asked for.
    TooMany,
    Outside(OutsideCause),
    Memory,
}

/// The collected form of a theory atom whose plan is given, where its rule's global variables have these values and the
/// possible atoms are those of the index; or its first cause.
///
/// Each element has up to `most` instances. Names with arguments, identifiers and values of variables are kept in the
/// table. A guard that holds something undefined is taken for the number 0: call this at instances.
pub fn collect<'a>(
    alloc: Global,
    plan: &TheoryPlan<'a>,
    values: &[Value],
    index: &Index,
    symbols: &mut SymbolTable,
    most: usize,
) -> Result<CollectedAtom, CollectStop>
    requires plan { IsPlanOf plan.now (length values.now) }
    requires values { All (λ value. IsKnown (length symbols.old) (Some value)) values.now }
    requires index { IsIndexOf symbols.old index.now }
    ensures collected { IfOk result (λ atom. FitsPlan plan.now (length values.now) (λ rule theory. IsAtomIn symbols.new (IsMember (atoms_in symbols.old index.now)) rule (map (value_in symbols.old) values.now) theory atom)) }
    ensures stop { IfErr result (λ stop. FitsPlan plan.now (length values.now) (λ rule theory. IsStopOf (IsMember (atoms_in symbols.old index.now)) rule (map (value_in symbols.old) values.now) theory most stop)) }
    ensures known { IfOk result (IsKnownAtom symbols.new) }
    ensures kept { IsFront symbols.old symbols.new }
{
    match gather_elements(alloc, plan, values, index, symbols, most) {
        Err(stop) => Err(stop_of_gathering(stop)),
        Ok(gathered) => with_elements(alloc, plan, values, gathered, symbols),
    }
}

// The same where the instances of all elements are gathered.
fn with_elements<'a>(
    alloc: Global,
    plan: &TheoryPlan<'a>,
    values: &[Value],
    gathered: Gathered,
    symbols: &mut SymbolTable,
) -> Result<CollectedAtom, CollectStop>
    requires plan { IsPlanOf plan.now (length values.now) }
    requires values { All (λ value. IsKnown (length symbols.old) (Some value)) values.now }
    requires places { AreKnownPlaces symbols.old gathered.places }
    ensures collected { IfOk result (λ atom. (atoms : List Symbol) → FitsPlan plan.now (length values.now) (λ rule theory. IsWhole symbols.old (IsMember atoms) rule (map (value_in symbols.old) values.now) theory gathered → IsAtomIn symbols.new (IsMember atoms) rule (map (value_in symbols.old) values.now) theory atom)) }
    ensures stop { IfErr result (λ stop. (atoms : List Symbol) (most : ℕ) → FitsPlan plan.now (length values.now) (λ rule theory. IsWhole symbols.old (IsMember atoms) rule (map (value_in symbols.old) values.now) theory gathered → IsStopOf (IsMember atoms) rule (map (value_in symbols.old) values.now) theory most stop)) }
    ensures known { IfOk result (IsKnownAtom symbols.new) }
    ensures kept { IsFront symbols.old symbols.new }
{
    match judge_right(alloc, plan, values, symbols) {
        Err(stop) => Err(stop_of_guard(stop)),
        Ok(guard) => {
            match collected_atom(alloc, plan.theory.name, gathered, guard, symbols) {
                Ok(atom) => Ok(atom),
                Err(stop) => Err(stop_of_atom(stop)),
            }
        }
    }
}

// What the guard comes to, if there is one.
fn judge_right<'a>(
    alloc: Global,
    plan: &TheoryPlan<'a>,
    values: &[Value],
    symbols: &mut SymbolTable,
) -> Result<Option<JudgedGuard>, ElementStop>
    requires plan { IsPlanOf plan.now (length values.now) }
    requires values { All (λ value. IsKnown (length symbols.old) (Some value)) values.now }
    ensures judged { IfOk result (λ judged. FitsPlan plan.now (length values.now) (λ rule theory. IsGuardJudged symbols.new theory.name (bound_in rule (map (value_in symbols.old) values.now)) theory.guard judged)) }
    ensures known { IfOk result (IsKnownGuard symbols.new) }
    ensures over { result ≡ Err ElementStop.Over → FitsPlan plan.now (length values.now) (λ rule theory. IsTrue (guard_over (bound_in rule (map (value_in symbols.old) values.now)) theory.guard)) }
    ensures kept { IsFront symbols.old symbols.new }
{
    match &plan.theory.guard {
        None => Ok(None),
        Some(guard) => judge_written(alloc, plan, guard, values, symbols),
    }
}

fn judge_written<'a>(
    alloc: Global,
    plan: &TheoryPlan<'a>,
    guard: &Guard,
    values: &[Value],
    symbols: &mut SymbolTable,
) -> Result<Option<JudgedGuard>, ElementStop>
    requires plan { IsPlanOf plan.now (length values.now) }
    requires guard { (out-TheoryAtom plan.now.theory.now).guard ≡ Some guard.now }
    requires values { All (λ value. IsKnown (length symbols.old) (Some value)) values.now }
    ensures judged { IfOk result (λ judged. FitsPlan plan.now (length values.now) (λ rule theory. IsGuardJudged symbols.new theory.name (bound_in rule (map (value_in symbols.old) values.now)) (Some guard.now) judged)) }
    ensures known { IfOk result (IsKnownGuard symbols.new) }
    ensures over { result ≡ Err ElementStop.Over → FitsPlan plan.now (length values.now) (λ rule theory. IsTrue (guard_over (bound_in rule (map (value_in symbols.old) values.now)) (Some guard.now))) }
    ensures kept { IsFront symbols.old symbols.new }
{
    match binding_of(alloc, &plan.start, values, &[]) {
        Err(_) => Err(ElementStop::Memory),
        Ok(binding) => match judge_guard(alloc, plan.theory.name, guard, &binding, symbols) {
            Err(stop) => Err(stop),
            Ok(right) => Ok(Some(JudgedGuard {
                rel: guard.rel,
                right,
            })),
        },
    }
}

fn stop_of_gathering(stop: GatherStop) -> CollectStop
    ensures { IsStopOfGathering stop result }
{
    match stop {
        GatherStop::TooMany => CollectStop::TooMany,
        GatherStop::Over => CollectStop::Outside(OutsideCause::Overflow),
        GatherStop::Memory => CollectStop::Memory,
    }
}

fn stop_of_guard(stop: ElementStop) -> CollectStop
    ensures { IsStopOfGuard stop result }
{
    match stop {
        ElementStop::Over => CollectStop::Outside(OutsideCause::Overflow),
        ElementStop::Memory => CollectStop::Memory,
    }
}

fn stop_of_atom(stop: AtomStop) -> CollectStop
    ensures { IsStopOfAtom stop result }
{
    match stop {
        AtomStop::Outside(cause) => CollectStop::Outside(cause),
        AtomStop::Memory => CollectStop::Memory,
    }
}
