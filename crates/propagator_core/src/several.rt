// Several propagators, called until all are quiet.
ghost use Rattle.std.specs.Prelude.{◌≡◌, ◌<◌, ◌^◌, length, get_or, map, IfOk, IfSome, IfNone};
ghost use Rattle.trail.specs.Growth.{Grows};
ghost use Rattle.propagator_core.specs.Meaning.{Meaning};
ghost use Rattle.propagator_core.specs.Shown.{IsShown, IsConflict};
ghost use Rattle.propagator_core.specs.Quiet.{Answers};
ghost use Rattle.propagator_core.specs.Several.{some_valid, AllFit, AllStand, AllQuiet, AllRest};
ghost use Rattle.propagator_core.specs.Turns.{Turns, turn_after};

use crate::outcome::Outcome;
use crate::propagator::Propagator;
use literals::Reason;
use std::alloc::Global;
use symbols::Memory;
use trail::Trail;

// How a call of one of them ended.
#[derive(Drop)]
enum Turn {
    // It is quiet, and the trail is as it was.
    Quiet,
    // The trail grew.
    Grown,
    // All literals of the reason are true.
    Conflict(Reason),
}

// Calls the one at this place.
fn call_one<P: Propagator>(
    alloc: Global,
    all: &mut [P],
    at: usize,
    trail: &mut Trail,
) -> Result<Outcome, Memory>
    requires at { at < length all.old }
    requires fit { AllFit (map P.meaning all.old) trail.old.shape }
    requires stand { AllStand P.stands P.looked all.old trail.old }
    ensures meanings { map P.meaning all.new ≡ map P.meaning all.old }
    ensures stand { AllStand P.stands P.looked all.new trail.new }
    ensures grows { Grows (IsShown (some_valid (map P.meaning all.old))) trail.old trail.new }
    ensures answer { IfOk result (λ outcome. (m : Meaning) → Answers (get_or (map P.meaning all.old) at m) trail.old trail.new outcome) }
{
    all[at].propagate(alloc, trail)
}

// How the call ended, where the trail is as long as it was or longer.
fn turn_of(outcome: Outcome, same: bool) -> Turn
    ensures { result ≡ turn_after outcome same }
{
    match outcome {
        Outcome::Conflict(reason) => Turn::Conflict(reason),
        Outcome::Quiet if same => Turn::Quiet,
        _ => Turn::Grown,
    }
}

// Calls the one at this place, and tells whether the trail is as it was.
fn take_turn<P: Propagator>(
    alloc: Global,
    all: &mut [P],
    at: usize,
    trail: &mut Trail,
) -> Result<Turn, Memory>
    requires at { at < length all.old }
    requires fit { AllFit (map P.meaning all.old) trail.old.shape }
    requires stand { AllStand P.stands P.looked all.old trail.old }
    ensures meanings { map P.meaning all.new ≡ map P.meaning all.old }
    ensures stand { AllStand P.stands P.looked all.new trail.new }
    ensures grows { Grows (IsShown (some_valid (map P.meaning all.old))) trail.old trail.new }
    ensures turn { IfOk result (λ turn. Turns (map P.meaning all.old) at trail.old trail.new turn) }
    ensures room { IfOk result (λ turn. length trail.new.entries < 2 ^ 64) }
{
    let before = trail.length();
    match call_one(alloc, all, at, trail) {
        Err(memory) => Err(memory),
        Ok(outcome) => Ok(turn_of(outcome, trail.length() == before)),
    }
}

/// Calls one after another, again from the first where one has narrowed, until all are quiet or one
/// comes to a conflict. It gives the reason of the conflict.
///
/// It ends, since a trail never has 2^64 entries.
pub fn propagate_all<P: Propagator>(
    alloc: Global,
    all: &mut [P],
    trail: &mut Trail,
) -> Result<Option<Reason>, Memory>
    requires fit { AllFit (map P.meaning all.old) trail.old.shape }
    requires stand { AllStand P.stands P.looked all.old trail.old }
    ensures meanings { map P.meaning all.new ≡ map P.meaning all.old }
    ensures stand { AllStand P.stands P.looked all.new trail.new }
    ensures grows { Grows (IsShown (some_valid (map P.meaning all.old))) trail.old trail.new }
    ensures conflict { IfOk result (λ found. IfSome found (λ reason. IsConflict (some_valid (map P.meaning all.old)) trail.new reason)) }
    ensures quiet { IfOk result (λ found. IfNone found (AllQuiet (map P.meaning all.old) trail.new)) }
    ensures rest { IfOk result (λ found. IfNone found (AllRest (map P.meaning all.old) trail.new)) }
{
    let mut at = 0;
    'turns: loop {
        if at == all.len() {
            return Ok(None);
        }
        match take_turn(alloc, all, at, trail) {
            Err(memory) => return Err(memory),
            Ok(Turn::Conflict(reason)) => return Ok(Some(reason)),
            Ok(Turn::Grown) => at = 0,
            Ok(Turn::Quiet) => at += 1,
        }
    }
}
