// The nogoods of reasons, and copies of them.
ghost use Rattle.std.specs.Prelude.{◌≡◌, List, Some, IfOk};
ghost use Rattle.literals.specs.declared.lit.Lit.{Lit};
ghost use Rattle.literals.specs.Nogoods.{Rises};
ghost use Rattle.conflict_analysis.specs.Chains.{nogood_of};
ghost use Rattle.conflict_analysis.specs.inner.Runs.{nogood_by, IsFrom};

use crate::learned::Start;
use literals::{Lit, Nogood, Reason, Step};
use nogood_store::Store;
use std::alloc::Global;
use symbols::{Listed, Memory};
use trail::Why;

// The literals of the nogood that is held under the id, none where there is none.
fn held_lits(store: &Store, id: u64) -> &[Lit]
    ensures value { (n : List Lit) → nogood_by store.now.held (Why.Held id) ≡ Some n → result.now ≡ n }
    ensures rises { Rises result.now }
{
    match store.live(id) {
        Some(nogood) => nogood.lits(),
        None => &[],
    }
}

/// The literals of the nogood by which an entry was set, none for a decision.
pub(crate) fn reason_lits<'a>(store: &'a Store, why: &'a Why) -> &'a [Lit]
    ensures value { (n : List Lit) → nogood_by store.now.held why.now ≡ Some n → result.now ≡ n }
    ensures rises { Rises result.now }
{
    match why {
        Why::Held(id) => held_lits(store, *id),
        Why::Shown(reason) => reason.nogood.lits(),
        Why::Decision => &[],
    }
}

/// The literals of the nogood that an analysis starts from.
pub(crate) fn start_lits<'a>(store: &'a Store, start: &'a Start) -> &'a [Lit]
    ensures value { (n : List Lit) → nogood_of store.now.held start.now ≡ Some n → result.now ≡ n }
    ensures rises { Rises result.now }
{
    match start {
        Start::Held(id) => held_lits(store, *id),
        Start::Shown(reason) => reason.nogood.lits(),
    }
}

// A copy of the step.
fn copy_step(alloc: Global, step: &Step) -> Result<Step, Memory>
    ensures { IfOk result (λ s. s ≡ step.now) }
{
    match step {
        Step::Sum(constraint) => Ok(Step::Sum(*constraint)),
        Step::Distinct(constraint, low, high) => Ok(Step::Distinct(*constraint, *low, *high)),
        Step::Window(constraint, from, to) => Ok(Step::Window(*constraint, *from, *to)),
        Step::Pair(constraint, first, second) => Ok(Step::Pair(*constraint, *first, *second)),
        Step::Loop(atoms) => Ok(Step::Loop(Listed::from_slice(alloc, atoms.items())?)),
        Step::Hole(constraint) => Ok(Step::Hole(*constraint)),
    }
}

// A copy of the reason.
fn copy_reason(alloc: Global, reason: &Reason) -> Result<Reason, Memory>
    ensures { IfOk result (λ r. r ≡ reason.now) }
{
    let nogood = Nogood::from_lits(alloc, reason.nogood.lits())?;
    let step = copy_step(alloc, &reason.step)?;
    Ok(Reason { nogood, step })
}

/// What the nogood by which an entry was set may be named by.
pub(crate) fn start_for(alloc: Global, why: &Why) -> Result<Start, Memory>
    requires { why.now ≡ Why.Decision → ⊥ }
    ensures { IfOk result (λ s. IsFrom why.now s) }
{
    match why {
        Why::Held(id) => Ok(Start::Held(*id)),
        Why::Shown(reason) => Ok(Start::Shown(copy_reason(alloc, reason)?)),
        Why::Decision => unreachable!(),
    }
}
