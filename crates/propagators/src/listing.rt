// The propagators of a program, one for each constraint that needs one.
ghost use Rattle.std.specs.Prelude.{◌≡◌, ◌<◌, ◌^◌, ◌++◌, false, length, map, option_to_list, IsTrue, IfOk, OnOk};
ghost use Rattle.std.specs.List.{list_any};
ghost use Rattle.trail.specs.Assignment.{Assignment};
ghost use Rattle.linear_normal.specs.Numbering.{numbering};
ghost use Rattle.numbering_laws.specs.Items.{are_items};
ghost use Rattle.propagator_core.specs.Standing.{StandsFor};
ghost use Rattle.propagator_core.specs.Several.{AllFit, AllStand};
ghost use Rattle.sum_propagator.specs.Sums.{sum_meaning};
ghost use Rattle.trail_worlds.specs.Total.{shape_of};
ghost use Rattle.propagators.specs.Domains.{domain_meaning};
ghost use Rattle.propagators.specs.Meanings.{meaning_for, meanings_from, CountsApart};
ghost use Rattle.propagators.specs.Tuples.{is_about_tuples};
ghost use Rattle.propagators.specs.Work.{DoTheWork};

use crate::any::Any;
use crate::domain::DomainPropagator;
use ground_model::{GroundProgram, IntSet};
use linear_normal::{Constraint, Item, Numbered};
use propagator_core::Propagator;
use std::alloc::Global;
use sum_propagator::SumPropagator;
use symbols::{Listed, Memory};

// The propagator of a sum.
fn of_sum(alloc: Global, number: u32, items: &[Item], most: i64) -> Result<Any, Memory>
    requires { IsTrue (are_items number items.now) }
    ensures meaning { IfOk result (λ one. ⟦<Any as Propagator>⟧.meaning one ≡ sum_meaning number items.now most) }
    ensures stands { IfOk result (λ one. (t : Assignment) → StandsFor (⟦<Any as Propagator>⟧.stands one) (⟦<Any as Propagator>⟧.looked one) t) }
{
    let items = Listed::from_slice(alloc, items)?;
    match SumPropagator::new(number, items, most) {
        Ok(sum) => Ok(Any::Sum(sum)),
        Err(memory) => Err(memory),
    }
}

// The propagator of a domain constraint.
fn of_domain(alloc: Global, number: u32, x: u32, set: &IntSet) -> Result<Any, Memory>
    ensures meaning { IfOk result (λ one. ⟦<Any as Propagator>⟧.meaning one ≡ domain_meaning number x set.now) }
    ensures stands { IfOk result (λ one. (t : Assignment) → StandsFor (⟦<Any as Propagator>⟧.stands one) (⟦<Any as Propagator>⟧.looked one) t) }
{
    let intervals = Listed::from_slice(alloc, set.intervals.items())?;
    Ok(Any::Domain(DomainPropagator::new(number, x, IntSet { intervals })))
}

// Adds the propagator of the constraint of this number, if it needs one.
fn add(
    alloc: Global,
    all: &mut Listed<Any>,
    number: u32,
    constraint: &Constraint,
) -> Result<(), Memory>
    requires items { CountsApart number constraint.now }
    requires stand { (t : Assignment) → AllStand ⟦<Any as Propagator>⟧.stands ⟦<Any as Propagator>⟧.looked all.old t }
    ensures meanings { OnOk result (map ⟦<Any as Propagator>⟧.meaning all.new ≡ map ⟦<Any as Propagator>⟧.meaning all.old ++ option_to_list (meaning_for number constraint.now)) }
    ensures stand { OnOk result ((t : Assignment) → AllStand ⟦<Any as Propagator>⟧.stands ⟦<Any as Propagator>⟧.looked all.new t) }
{
    match constraint {
        Constraint::AtMost(items, most) => {
            let one = of_sum(alloc, number, items.items(), *most)?;
            all.push(one)
        }
        Constraint::Domain(x, set) => {
            let one = of_domain(alloc, number, *x, set)?;
            all.push(one)
        }
        _ => Ok(()),
    }
}

/// The propagators of the program's sums and domain constraints, in the order of their numbers. Each has
/// looked at nothing, so it stands for every trail.
///
/// No constraint may be about tuples, as `has_tuples` tells. Linear in the size of the constraints.
pub fn propagators_of(
    alloc: Global,
    ground: &GroundProgram,
    numbered: &Numbered,
) -> Result<Listed<Any>, Memory>
    requires numbering { numbered.now ≡ numbering ground.now }
    requires few { length numbered.now.constraints < 2 ^ 32 }
    requires no_tuples { list_any is_about_tuples numbered.now.constraints ≡ false }
    ensures meanings { IfOk result (λ all. map ⟦<Any as Propagator>⟧.meaning all ≡ meanings_from 1 numbered.now.constraints) }
    ensures work { IfOk result (λ all. DoTheWork ground.now (map ⟦<Any as Propagator>⟧.meaning all)) }
    ensures fit { IfOk result (λ all. AllFit (map ⟦<Any as Propagator>⟧.meaning all) (shape_of ground.now)) }
    ensures stand { IfOk result (λ all. (t : Assignment) → AllStand ⟦<Any as Propagator>⟧.stands ⟦<Any as Propagator>⟧.looked all t) }
{
    let mut all = Listed::new(alloc);
    let constraints = numbered.constraints.items();
    for at in 0..constraints.len() {
        add(alloc, &mut all, at as u32 + 1, &constraints[at])?;
    }
    Ok(all)
}
