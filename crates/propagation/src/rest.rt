// Propagation: held nogoods, then the propagators that are awake, until nothing changes.
ghost use Rattle.std.specs.Prelude.{◌≡◌, List, map, length, IfOk, IfSome, IfNone};
ghost use Rattle.std.specs.List.{AllByRecursion, All};
ghost use Rattle.trail.specs.Growth.{Grows};
ghost use Rattle.nogood_store.specs.Propagation.{AllNamed, IsForced, IsQuiet as IsQuietOf, IsConflict as IsMet};
ghost use Rattle.nogood_store.specs.Holding.{IsFront, seen_of};
ghost use Rattle.propagator_core.specs.Meaning.{Meaning};
ghost use Rattle.propagator_core.specs.Several.{AllFit, AllStand};
ghost use Rattle.propagator_core.specs.Quiet.{IsSteady};
ghost use Rattle.propagation.specs.Waking.{HasRows, AreWakes, OthersRest, KeepsRest};
ghost use Rattle.propagation.specs.Causes.{IsCaused, Finds};

use crate::calls::{Move, call_awake};
use crate::found::Found;
use crate::queue::Queue;
use crate::wakes::{Wakes, wake_from};
use conflict_analysis::Start;
use nogood_store::{Store, Unit};
use propagator_core::Propagator;
use std::alloc::Global;
use symbols::Memory;
use trail::Trail;

// Unit propagation over the held nogoods, which wakes those that look at what was set. It gives the nogood
// whose literals are all true, if there is one.
fn propagate_units(
    store: &mut Store,
    wakes: &Wakes,
    awake: &mut Queue,
    trail: &mut Trail,
) -> Result<Option<u64>, Memory>
    requires rows { HasRows trail.old.shape awake.old.count wakes.now }
    requires named { AllNamed trail.old.shape store.old.held }
    requires looked { IsFront store.old.looked (seen_of trail.old.entries) }
    ensures grows { Grows (IsForced store.old.held) trail.old trail.new }
    ensures none { IfOk result (λ met. IfNone met (AllByRecursion (λ h. IsQuietOf trail.new h.nogood) store.old.held)) }
    ensures some { IfOk result (λ met. IfSome met (λ id. IsMet store.old.held trail.new id)) }
    ensures others { IfOk result (λ met. IfNone met ((ms : List Meaning) → KeepsRest wakes.now ms awake.old.places awake.new.places trail.old trail.new)) }
    ensures count { awake.new.count ≡ awake.old.count }
    ensures looked { IsFront store.new.looked (seen_of trail.new.entries) }
    ensures held { store.new.held ≡ store.old.held }
{
    let from = trail.length();
    match store.unit_propagate(trail) {
        Err(memory) => Err(memory),
        Ok(Unit::Conflict(id)) => Ok(Some(id)),
        Ok(Unit::Quiet) => match wake_from(wakes, awake, trail, from) {
            Err(memory) => Err(memory),
            Ok(()) => Ok(None),
        },
    }
}

/// Propagates until nothing changes, or a nogood has all literals true.
///
/// It ends, since a trail never has 2^64 entries.
pub fn settle<P: Propagator>(
    alloc: Global,
    store: &mut Store,
    propagators: &mut [P],
    wakes: &Wakes,
    awake: &mut Queue,
    trail: &mut Trail,
) -> Result<Found, Memory>
    requires named { AllNamed trail.old.shape store.old.held }
    requires looked { IsFront store.old.looked (seen_of trail.old.entries) }
    requires rows { HasRows trail.old.shape awake.old.count wakes.now }
    requires count { awake.old.count ≡ length propagators.old }
    requires wakes { AreWakes wakes.now (map P.meaning propagators.old) }
    requires fit { AllFit (map P.meaning propagators.old) trail.old.shape }
    requires steady { All IsSteady (map P.meaning propagators.old) }
    requires stand { AllStand P.stands P.looked propagators.old trail.old }
    requires others { OthersRest awake.old.places (map P.meaning propagators.old) trail.old }
    ensures grows { Grows (IsCaused store.old.held (map P.meaning propagators.old)) trail.old trail.new }
    ensures found { IfOk result (λ found. Finds store.old.held (map P.meaning propagators.old) trail.new awake.new.places found) }
    ensures meanings { map P.meaning propagators.new ≡ map P.meaning propagators.old }
    ensures stand { AllStand P.stands P.looked propagators.new trail.new }
    ensures looked { IsFront store.new.looked (seen_of trail.new.entries) }
    ensures held { store.new.held ≡ store.old.held }
    ensures count { awake.new.count ≡ awake.old.count }
{
    'settle: loop {
        match propagate_units(store, wakes, awake, trail) {
            Err(memory) => return Err(memory),
            Ok(Some(id)) => return Ok(Found::Conflict(Start::Held(id))),
            Ok(None) => {}
        }
        match call_awake(alloc, propagators, wakes, awake, trail) {
            Err(memory) => return Err(memory),
            Ok(Move::Done) => return Ok(Found::Calm),
            Ok(Move::Stuck(reason)) => return Ok(Found::Conflict(Start::Shown(reason))),
            Ok(Move::Gone) => {}
        }
    }
}
