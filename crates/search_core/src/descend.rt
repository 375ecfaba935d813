// From one decision to the next, until all is decided or a conflict comes.
ghost use Rattle.std.specs.Prelude.{◌≡◌, ◌≤◌, length, IfOk, OnOk};
ghost use Rattle.propagation.specs.declared.found.Found.TheVariants as the_found;
ghost use Rattle.search_core.specs.inner.Rooms.{IsRoom, IsRested, Keeps, Decides, Bottoms, IsFound};

use crate::room::{Room, trails_are_assignments};
use conflict_analysis::Start;
use decisions::choose;
use founded_propagation::settle_founded;
use propagation::{Found, decide};
use propagator_core::Propagator;
use std::alloc::Global;
use symbols::Memory;

/// How a descent ended.
#[derive(Debug, Drop)]
pub(crate) enum Bottom {
    /// All is decided, nothing is left to propagate, and no set of atoms is unfounded.
    Total,
    /// All literals of the nogood are true.
    Conflict(Start),
}

// Propagates to rest or to a conflict.
fn propagate<P: Propagator>(alloc: Global, room: &mut Room<P>) -> Result<Found, Memory>
    requires room { IsRoom P.meaning P.stands P.looked room.old }
    requires rested { IsRested P.meaning room.old }
    ensures room { IsRoom P.meaning P.stands P.looked room.new }
    ensures keeps { Keeps room.old room.new }
    ensures longer { length room.old.trail.entries ≤ length room.new.trail.entries }
    ensures found { IfOk result (λ found. IsFound P.meaning room.new found) }
{
    settle_founded(
        alloc,
        &mut room.loops,
        &mut room.store,
        &mut room.propagators,
        &room.wakes,
        &mut room.awake,
        &mut room.trail,
    )
}

// Decides a literal at a new level, where one is open.
fn decide_next<P: Propagator>(room: &mut Room<P>) -> Result<bool, Memory>
    requires room { IsRoom P.meaning P.stands P.looked room.old }
    requires calm { IsFound P.meaning room.old the_found.Calm }
    ensures room { OnOk result (IsRoom P.meaning P.stands P.looked room.new) }
    ensures keeps { OnOk result (Keeps room.old room.new) }
    ensures program { room.new.ground ≡ room.old.ground }
    ensures went { IfOk result (λ went. Decides P.meaning room.old room.new went) }
{
    trails_are_assignments(&room.trail);
    let Some(lit) = choose(&mut room.advice, &room.trail) else {
        return Ok(false);
    };
    decide(&room.wakes, &mut room.awake, &mut room.trail, lit)?;
    Ok(true)
}

/// Propagates and decides until all is decided or all literals of a nogood are true.
pub(crate) fn descend<P: Propagator>(alloc: Global, room: &mut Room<P>) -> Result<Bottom, Memory>
    requires room { IsRoom P.meaning P.stands P.looked room.old }
    requires rested { IsRested P.meaning room.old }
    ensures room { OnOk result (IsRoom P.meaning P.stands P.looked room.new) }
    ensures keeps { OnOk result (Keeps room.old room.new) }
    ensures program { room.new.ground ≡ room.old.ground }
    ensures bottom { IfOk result (λ bottom. Bottoms P.meaning room.new bottom) }
{
    'descend: loop {
        match propagate(alloc, room) {
            Err(memory) => return Err(memory),
            Ok(Found::Conflict(start)) => return Ok(Bottom::Conflict(start)),
            Ok(Found::Calm) => {}
        }
        match decide_next(room) {
            Err(memory) => return Err(memory),
            Ok(false) => return Ok(Bottom::Total),
            Ok(true) => {}
        }
    }
}
