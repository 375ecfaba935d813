//! One sum of many items.
ghost use Rattle.std.specs.Prelude.{◌≡◌, ◌+◌, ◌-◌, ◌<◌, ◌≤◌, ◌^◌, length, IsTrue, IfOk, OnOk};
ghost use Rattle.std.specs.List.{list_all};
ghost use Rattle.trail.specs.declared.shape.Shape.{Shape};
ghost use Rattle.propagator_core.specs.Standing.{StandsFor};
ghost use Rattle.numbering_laws.specs.Items.{are_items};
ghost use Rattle.sum_propagator.specs.Sums.{is_item_of, sum_meaning, StandsAt};
ghost use Rattle.sum_propagator.specs.Kinds.{meaning_of};
ghost use Rattle.sum_trial.specs.Trials.{wide_items, AreRaised, GrowsRaised, IsWidened};

use crate::starting::start;
use linear_normal::Item;
use literals::Lit;
use propagator_core::Propagator;
use std::alloc::Global;
use sum_propagator::SumPropagator;
use symbols::{Listed, Memory};
use trail::{Trail, Why};

// The first variable, the truths of the constraints from 2 on, and the second variable taken away.
fn items_of(alloc: Global, constraints: u32) -> Result<Listed<Item>, Memory>
    requires some { 1 ≤ constraints }
    requires few { constraints ≤ 100000 }
    ensures exactly { IfOk result (λ items. items ≡ wide_items (constraints - 1)) }
    ensures items { IfOk result (λ items. IsTrue (are_items 1 items)) }
    ensures named { IfOk result (λ items. (s : Shape) → constraints ≤ s.constraints → 2 ≤ s.variables → IsTrue (list_all (is_item_of s) items)) }
{
    let mut items = Listed::from_slice(alloc, &[Item::Value(1, 1), Item::Value(2, -1)])?;
    for before in 1..constraints {
        items.push(Item::Truth(before + 1, 1))?;
    }
    Ok(items)
}

// Raises the first variable one by one so many times, and calls the sum each time.
fn raise<P: Propagator>(
    alloc: Global,
    sum: &mut P,
    trail: &mut Trail,
    times: u32,
) -> Result<(), Memory>
    requires fits { IsTrue ((P.meaning sum.old).fits trail.old.shape) }
    requires stands { StandsFor (P.stands sum.old) (P.looked sum.old) trail.old }
    requires named { 1 ≤ trail.old.shape.variables }
    requires few { times ≤ 1000000 }
    ensures grows { GrowsRaised times (P.meaning sum.old).valid trail.old trail.new }
    ensures raised { OnOk result (AreRaised times trail.new) }
{
    for before in 0..times {
        trail.set(Lit::AtLeast(1, before as i32 + 1), Why::Decision)?;
        sum.propagate(alloc, trail)?;
    }
    Ok(())
}

// The sum of these items that is at most this number, as constraint 1.
fn sum_of(
    alloc: Global,
    constraints: u32,
    most: i64,
    trail: &Trail,
) -> Result<SumPropagator, Memory>
    requires constraints { constraints ≡ trail.now.shape.constraints }
    requires variables { 2 ≤ trail.now.shape.variables }
    requires some { 1 ≤ constraints }
    requires few { constraints ≤ 100000 }
    ensures meaning { IfOk result (λ p. meaning_of p.sum.kind p.sum.number p.sum.items p.sum.most ≡ sum_meaning 1 (wide_items (constraints - 1)) most) }
    ensures fits { IfOk result (λ p. IsTrue ((meaning_of p.sum.kind p.sum.number p.sum.items p.sum.most).fits trail.now.shape)) }
    ensures stands { IfOk result (λ p. StandsFor (StandsAt p.sum.items p.totals p.widest) p.seen trail.now) }
{
    let items = items_of(alloc, constraints)?;
    match SumPropagator::new(1, items, most) {
        Ok(sum) => Ok(sum),
        Err(memory) => Err(memory),
    }
}

/// How many entries there are when one sum of so many items, which is at most this number, has been called
/// as often, each time after a raised bound.
pub(crate) fn narrow_wide(alloc: Global, count: u32, most: i64) -> Result<usize, Memory>
    requires some { 1 ≤ count }
    requires few { count ≤ 100000 }
    ensures at_least { IfOk result (λ entries. 1 ≤ entries) }
    ensures widened { IfOk result (λ entries. IsWidened count most entries) }
{
    let mut trail = start(alloc, count, 2, 1)?;
    let mut sum = sum_of(alloc, count, most, &trail)?;
    raise(alloc, &mut sum, &mut trail, count)?;
    Ok(trail.length())
}
