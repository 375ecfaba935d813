//! A chain of sums.
ghost use Rattle.std.specs.Prelude.{◌≡◌, ◌+◌, ◌<◌, ◌≤◌, ◌^◌, length, map, IsTrue, IfOk};
ghost use Rattle.trail.specs.declared.shape.Shape.{Shape};
ghost use Rattle.trail.specs.Assignment.{Assignment};
ghost use Rattle.propagator_core.specs.Standing.{StandsFor};
ghost use Rattle.propagator_core.specs.Several.{AllFit, AllStand};
ghost use Rattle.sum_propagator.specs.Sums.{StandsAt};
ghost use Rattle.sum_propagator.specs.Kinds.{meaning_of};
ghost use Rattle.sum_trial.specs.Trials.{link_meaning, chain_meanings, IsChained};

use crate::starting::{add, start};
use linear_normal::Item;
use propagator_core::propagate_all;
use std::alloc::Global;
use sum_propagator::SumPropagator;
use symbols::{Listed, Memory};
use trail::Trail;

// The constraint that the variable of its number is at least 10 below the next one.
fn link(alloc: Global, number: u32, trail: &Trail) -> Result<SumPropagator, Memory>
    requires low { 1 ≤ number }
    requires high { number ≤ trail.now.shape.constraints }
    requires next { number < trail.now.shape.variables }
    requires small { number ≤ 100000 }
    ensures meaning { IfOk result (λ p. meaning_of p.sum.kind p.sum.number p.sum.items p.sum.most ≡ link_meaning number) }
    ensures fits { IfOk result (λ p. IsTrue ((meaning_of p.sum.kind p.sum.number p.sum.items p.sum.most).fits trail.now.shape)) }
    ensures stands { IfOk result (λ p. StandsFor (StandsAt p.sum.items p.totals p.widest) p.seen trail.now) }
{
    let items = [Item::Value(number, 1), Item::Value(number + 1, -1)];
    let list = Listed::from_slice(alloc, &items)?;
    match SumPropagator::new(number, list, -10) {
        Ok(sum) => Ok(sum),
        Err(memory) => Err(memory),
    }
}

// So many of them, one after another.
fn links(alloc: Global, count: u32, trail: &Trail) -> Result<Vec<SumPropagator>, Memory>
    requires constraints { count ≡ trail.now.shape.constraints }
    requires variables { count < trail.now.shape.variables }
    requires small { count ≤ 100000 }
    ensures meanings { IfOk result (λ all. map (λ p. meaning_of p.sum.kind p.sum.number p.sum.items p.sum.most) all.items ≡ chain_meanings count) }
    ensures count { IfOk result (λ all. length all.items ≡ count) }
    ensures fit { IfOk result (λ all. AllFit (map (λ p. meaning_of p.sum.kind p.sum.number p.sum.items p.sum.most) all.items) trail.now.shape) }
    ensures stand { IfOk result (λ all. AllStand (λ p. StandsAt p.sum.items p.totals p.widest) (λ p. p.seen) all.items trail.now) }
{
    let mut all = Vec::new(alloc);
    for before in 0..count {
        add(&mut all, link(alloc, before + 1, trail)?, trail)?;
    }
    Ok(all)
}

/// How many entries there are when so many sums are narrowed to their end.
pub(crate) fn narrow_chain(alloc: Global, count: u32) -> Result<usize, Memory>
    requires some { 1 ≤ count }
    requires few { count ≤ 100000 }
    ensures at_least { IfOk result (λ entries. count ≤ entries) }
    ensures chained { IfOk result (λ entries. IsChained count entries) }
{
    let mut trail = start(alloc, count, count + 1, count)?;
    let mut all = links(alloc, count, &trail)?;
    propagate_all(alloc, &mut all, &mut trail)?;
    Ok(trail.length())
}
