// Calls of the propagators that are awake.
ghost use Rattle.std.specs.Prelude.{◌≡◌, ◌<◌, map, length, get_or, IfOk};
ghost use Rattle.trail.specs.Growth.{Grows};
ghost use Rattle.propagator_core.specs.Meaning.{Meaning};
ghost use Rattle.propagator_core.specs.Shown.{IsShown};
ghost use Rattle.propagator_core.specs.Several.{AllFit, AllStand, some_valid};
ghost use Rattle.propagator_core.specs.Quiet.{Answers};
ghost use Rattle.propagation.specs.Waking.{HasRows};
ghost use Rattle.propagation.specs.inner.Moves.{Steps, Runs};

use crate::queue::Queue;
use crate::wakes::{Wakes, wake_from};
use literals::Reason;
use propagator_core::{Outcome, Propagator};
use std::alloc::Global;
use symbols::Memory;
use trail::Trail;

// What calls of propagators came to.
#[derive(Debug, Drop)]
pub(crate) enum Move {
    // None is awake.
    Done,
    // One was called.
    Gone,
    // All literals of the reason are true.
    Stuck(Reason),
}

// Calls the one at the place.
fn call<P: Propagator>(
    alloc: Global,
    propagators: &mut [P],
    place: usize,
    trail: &mut Trail,
) -> Result<Outcome, Memory>
    requires place { place < length propagators.old }
    requires fit { AllFit (map P.meaning propagators.old) trail.old.shape }
    requires stand { AllStand P.stands P.looked propagators.old trail.old }
    ensures meanings { map P.meaning propagators.new ≡ map P.meaning propagators.old }
    ensures stand { AllStand P.stands P.looked propagators.new trail.new }
    ensures grows { Grows (IsShown (some_valid (map P.meaning propagators.old))) trail.old trail.new }
    ensures answer { IfOk result (λ outcome. (m : Meaning) → Answers (get_or (map P.meaning propagators.old) place m) trail.old trail.new outcome) }
{
    propagators[place].propagate(alloc, trail)
}

// Calls the propagator that was woken first, and wakes those that look at what it has set.
fn call_first<P: Propagator>(
    alloc: Global,
    propagators: &mut [P],
    wakes: &Wakes,
    awake: &mut Queue,
    trail: &mut Trail,
) -> Result<Move, Memory>
    requires rows { HasRows trail.old.shape awake.old.count wakes.now }
    requires count { awake.old.count ≡ length propagators.old }
    requires fit { AllFit (map P.meaning propagators.old) trail.old.shape }
    requires stand { AllStand P.stands P.looked propagators.old trail.old }
    ensures grows { Grows (IsShown (some_valid (map P.meaning propagators.old))) trail.old trail.new }
    ensures step { IfOk result (λ step. Steps (map P.meaning propagators.old) wakes.now trail.old trail.new awake.old.places awake.new.places step) }
    ensures meanings { map P.meaning propagators.new ≡ map P.meaning propagators.old }
    ensures stand { AllStand P.stands P.looked propagators.new trail.new }
    ensures count { awake.new.count ≡ awake.old.count }
{
    let Some(place) = awake.take() else {
        return Ok(Move::Done);
    };
    let from = trail.length();
    match call(alloc, propagators, place, trail) {
        Err(memory) => Err(memory),
        Ok(Outcome::Conflict(reason)) => Ok(Move::Stuck(reason)),
        Ok(Outcome::Narrowed) => {
            awake.wake(place)?;
            wake_from(wakes, awake, trail, from)?;
            Ok(Move::Gone)
        }
        Ok(Outcome::Quiet) => {
            wake_from(wakes, awake, trail, from)?;
            Ok(Move::Gone)
        }
    }
}

// Calls those that are awake, one after another, until the trail has grown.
pub(crate) fn call_awake<P: Propagator>(
    alloc: Global,
    propagators: &mut [P],
    wakes: &Wakes,
    awake: &mut Queue,
    trail: &mut Trail,
) -> Result<Move, Memory>
    requires rows { HasRows trail.old.shape awake.old.count wakes.now }
    requires count { awake.old.count ≡ length propagators.old }
    requires fit { AllFit (map P.meaning propagators.old) trail.old.shape }
    requires stand { AllStand P.stands P.looked propagators.old trail.old }
    ensures grows { Grows (IsShown (some_valid (map P.meaning propagators.old))) trail.old trail.new }
    ensures runs { IfOk result (λ step. Runs (map P.meaning propagators.old) wakes.now trail.old trail.new awake.old.places awake.new.places step) }
    ensures meanings { map P.meaning propagators.new ≡ map P.meaning propagators.old }
    ensures stand { AllStand P.stands P.looked propagators.new trail.new }
    ensures count { awake.new.count ≡ awake.old.count }
{
    let from = trail.length();
    'calls: loop {
        match call_first(alloc, propagators, wakes, awake, trail) {
            Err(memory) => return Err(memory),
            Ok(Move::Done) => return Ok(Move::Done),
            Ok(Move::Stuck(reason)) => return Ok(Move::Stuck(reason)),
            Ok(Move::Gone) => {
                if trail.length() > from {
                    return Ok(Move::Gone);
                }
            }
        }
    }
}
