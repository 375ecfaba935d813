//! A trail on which constraints are true, and propagators that stand for a trail.
ghost use Rattle.std.specs.Prelude.{◌≡◌, ◌≤◌, [], ◌∷◌, ◌++◌, map, IsTrue, IfOk, OnOk};
ghost use Rattle.trail.specs.Assignment.{lits_of};
ghost use Rattle.propagator_core.specs.Standing.{StandsFor};
ghost use Rattle.propagator_core.specs.Several.{AllFit, AllStand};
ghost use Rattle.sum_trial.specs.Trials.{first_true};

use literals::Lit;
use propagator_core::Propagator;
use std::alloc::Global;
use symbols::{Ends, Memory};
use trail::{Shape, Trail, Why};

/// A trail over so many constraints and variables from 0 to 10 for each constraint, on which the first
/// constraints are true.
pub(crate) fn start(
    alloc: Global,
    constraints: u32,
    variables: u32,
    first: u32,
) -> Result<Trail, Memory>
    requires some { 1 ≤ constraints }
    requires few { constraints ≤ 100000 }
    requires first { first ≤ constraints }
    ensures constraints { IfOk result (λ t. t.shape.constraints ≡ constraints) }
    ensures variables { IfOk result (λ t. t.shape.variables ≡ variables) }
    ensures entries { IfOk result (λ t. lits_of t.entries ≡ first_true first) }
{
    let shape = Shape {
        atoms: 0,
        bodies: 0,
        constraints,
        variables,
        ends: Ends {
            min: 0,
            max: 10 * constraints as i32,
        },
    };
    let mut trail = Trail::new(alloc, shape)?;
    for number in 0..first {
        trail.set(Lit::Constraint(number + 1, true), Why::Decision)?;
    }
    Ok(trail)
}

/// Adds one more propagator that stands for the trail.
pub(crate) fn add<P: Propagator>(all: &mut Vec<P>, one: P, trail: &Trail) -> Result<(), Memory>
    requires fit { AllFit (map P.meaning all.old.items) trail.now.shape }
    requires stand { AllStand P.stands P.looked all.old.items trail.now }
    requires one_fits { IsTrue ((P.meaning one).fits trail.now.shape) }
    requires one_stands { StandsFor (P.stands one) (P.looked one) trail.now }
    ensures fit { OnOk result (AllFit (map P.meaning all.new.items) trail.now.shape) }
    ensures stand { OnOk result (AllStand P.stands P.looked all.new.items trail.now) }
    ensures items { OnOk result (all.new.items ≡ all.old.items ++ one ∷ []) }
{
    all.push(one)?;
    Ok(())
}
