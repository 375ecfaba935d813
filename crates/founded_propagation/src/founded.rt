// Propagation with a look for unfounded sets, where nothing else is left to say.
ghost use Rattle.std.specs.Prelude.{◌≡◌, ◌<◌, ◌^◌, List, map, length, IfOk, IfSome, IfNone};
ghost use Rattle.std.specs.List.{All};
ghost use Rattle.trail.specs.Assignment.{Names, is_true_on};
ghost use Rattle.trail.specs.Growth.{Grows};
ghost use Rattle.nogood_store.specs.Propagation.{AllNamed};
ghost use Rattle.nogood_store.specs.Holding.{IsFront, seen_of};
ghost use Rattle.propagator_core.specs.Shown.{IsShown, IsConflict};
ghost use Rattle.propagator_core.specs.Several.{AllFit, AllStand};
ghost use Rattle.propagator_core.specs.Quiet.{IsSteady};
ghost use Rattle.unfounded_sets.specs.Dependence.{Dependence, Fits};
ghost use Rattle.unfounded_sets.specs.Loops.{IsLoop, AreSupported};
ghost use Rattle.unfounded_sets.specs.Laws.{HoldsSupports};
ghost use Rattle.propagation.specs.Waking.{HasRows, AreWakes, OthersRest};
ghost use Rattle.founded_propagation.specs.Founding.{IsCausedWith, FindsFounded};
ghost use Rattle.founded_propagation.specs.inner.Closing.{by_loop, AllKeep, Closes};

use conflict_analysis::Start;
use literals::{Lit, Reason, complement};
use nogood_store::Store;
use propagation::{Found, Queue, Wakes, settle};
use propagator_core::Propagator;
use std::alloc::Global;
use symbols::Memory;
use trail::{Trail, Why};
use unfounded_sets::Unfounded;

// How a look for unfounded sets ended.
#[derive(Drop)]
enum Closed {
    // There is none.
    Free,
    // An atom of one was made false.
    Grown,
    // All literals of a loop's reason are true.
    Stuck(Reason),
}

// Whether the literal is true.
fn is_true(trail: &Trail, lit: Lit) -> bool
    requires { Names trail.now.shape lit }
    ensures { result ≡ is_true_on trail.now lit }
{
    match trail.truth(lit) {
        Some(true) => true,
        _ => false,
    }
}

// Sets the opposite of the first literal of a loop's reason, or gives the reason back where that is true.
fn set_opposite(trail: &mut Trail, reason: Reason) -> Result<Option<Reason>, Memory>
    requires by { (d : Dependence) × IsLoop d trail.old reason }
    ensures grows { (d : Dependence) → IsLoop d trail.old reason → Grows (IsShown (by_loop d)) trail.old trail.new }
    ensures none { IfOk result (λ met. IfNone met (length trail.old.entries < length trail.new.entries)) }
    ensures keeps { IfOk result (λ met. IfNone met (AllKeep trail.old trail.new)) }
    ensures some { IfOk result (λ met. IfSome met (λ r. (d : Dependence) → IsLoop d trail.old reason → IsConflict (by_loop d) trail.new r)) }
{
    let lit = reason.nogood.lits()[0];
    if is_true(trail, lit) {
        return Ok(Some(reason));
    }
    match trail.set(complement(lit), Why::Shown(reason)) {
        Err(memory) => Err(memory),
        Ok(_) => Ok(None),
    }
}

// Makes an atom of an unfounded set false, if there is one. No propagator looks at atoms, so none is woken.
fn close_loop(alloc: Global, loops: &mut Unfounded, trail: &mut Trail) -> Result<Closed, Memory>
    requires fits { Fits loops.old trail.old.shape }
    requires supported { AreSupported loops.old trail.old }
    ensures grows { Grows (IsShown (by_loop loops.old)) trail.old trail.new }
    ensures closes { IfOk result (λ closed. Closes loops.old trail.old trail.new closed) }
    ensures same { loops.new ≡ loops.old }
{
    let reason = match loops.find_at_rest(alloc, trail) {
        Err(memory) => return Err(memory),
        Ok(None) => return Ok(Closed::Free),
        Ok(Some(reason)) => reason,
    };
    match set_opposite(trail, reason) {
        Err(memory) => Err(memory),
        Ok(Some(reason)) => Ok(Closed::Stuck(reason)),
        Ok(None) => Ok(Closed::Grown),
    }
}

/// Propagates until nothing changes and no set of atoms is unfounded, or a nogood has all literals true.
///
/// It looks for unfounded sets only where nothing else is left to say. It ends, since a trail never has
/// 2^64 entries.
pub fn settle_founded<P: Propagator>(
    alloc: Global,
    loops: &mut Unfounded,
    store: &mut Store,
    propagators: &mut [P],
    wakes: &Wakes,
    awake: &mut Queue,
    trail: &mut Trail,
) -> Result<Found, Memory>
    requires fits { Fits loops.old trail.old.shape }
    requires supports { HoldsSupports loops.old store.old.held }
    requires named { AllNamed trail.old.shape store.old.held }
    requires looked { IsFront store.old.looked (seen_of trail.old.entries) }
    requires rows { HasRows trail.old.shape awake.old.count wakes.now }
    requires count { awake.old.count ≡ length propagators.old }
    requires wakes { AreWakes wakes.now (map P.meaning propagators.old) }
    requires fit { AllFit (map P.meaning propagators.old) trail.old.shape }
    requires steady { All IsSteady (map P.meaning propagators.old) }
    requires stand { AllStand P.stands P.looked propagators.old trail.old }
    requires others { OthersRest awake.old.places (map P.meaning propagators.old) trail.old }
    ensures grows { Grows (IsCausedWith store.old.held (map P.meaning propagators.old) loops.old) trail.old trail.new }
    ensures found { IfOk result (λ found. FindsFounded store.old.held (map P.meaning propagators.old) loops.old trail.new awake.new.places found) }
    ensures loops { loops.new ≡ loops.old }
    ensures meanings { map P.meaning propagators.new ≡ map P.meaning propagators.old }
    ensures stand { AllStand P.stands P.looked propagators.new trail.new }
    ensures looked { IsFront store.new.looked (seen_of trail.new.entries) }
    ensures held { store.new.held ≡ store.old.held }
    ensures count { awake.new.count ≡ awake.old.count }
{
    'settle: loop {
        let before = trail.length();
        match settle(alloc, store, propagators, wakes, awake, trail) {
            Err(memory) => return Err(memory),
            Ok(Found::Conflict(from)) => return Ok(Found::Conflict(from)),
            Ok(Found::Calm) => {}
        }
        match close_loop(alloc, loops, trail) {
            Err(memory) => return Err(memory),
            Ok(Closed::Free) => return Ok(Found::Calm),
            Ok(Closed::Stuck(reason)) => return Ok(Found::Conflict(Start::Shown(reason))),
            Ok(Closed::Grown) => {
                let after = trail.length();
                prove!(before < after);
            }
        }
    }
}
