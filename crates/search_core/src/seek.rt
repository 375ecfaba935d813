// The search, turn by turn.
ghost use Rattle.std.specs.Prelude.{◌≡◌, ◌<◌, ◌≤◌, false, true, IsTrue, IfOk, IsErrOf, Ok, Some};
ghost use Rattle.ground_model.specs.declared.answer.Answer.{Answer as TheAnswer};
ghost use Rattle.search_core.specs.declared.event.Event.TheVariants as the_event;
ghost use Rattle.search_core.specs.declared.event.Stop.{Stop as TheStop};
ghost use Rattle.search_core.specs.Searching.{Goes, Stops, is_exhausted};
ghost use Rattle.search_core.specs.inner.Lines.{Ends, IsFullAt};
ghost use Rattle.search_core.specs.inner.Rooms.{IsRoom, GoesOn, StaysOn, Turns, ComesWhen, state_in, searching_of};

use crate::descend::{Bottom, descend};
use crate::event::{Event, Stop};
use crate::give::give;
use crate::overcome::overcome;
use crate::room::Room;
use propagator_core::Propagator;
use std::alloc::Global;

// Claims that what was given is all that there is.
fn finish<P: Propagator>(room: &mut Room<P>)
    requires room { IsRoom P.meaning P.stands P.looked room.old }
    requires closed { room.old.closed ≡ true }
    ensures ends { Ends room.old.ground (state_in room.old) (state_in room.new) }
    ensures program { room.new.ground ≡ room.old.ground }
{
    room.notes.claim();
}

// Goes on to the next answer, to the end or past one conflict.
fn turn<P: Propagator>(alloc: Global, room: &mut Room<P>) -> Result<Option<Event>, Stop>
    requires goes_on { GoesOn P.meaning P.stands P.looked room.old }
    ensures program { room.new.ground ≡ room.old.ground }
    ensures turns { IfOk result (λ found. Turns room.old room.new found) }
    ensures stays_on { IfOk result (λ found. StaysOn P.meaning P.stands P.looked room.new found) }
    ensures comes { IfOk result (λ found. ComesWhen found room.old.closed) }
    ensures full { IsErrOf result Stop.Limit → IsFullAt room.old.ground (state_in room.old) }
{
    if room.closed {
        finish(room);
        return Ok(Some(Event::Exhausted));
    }
    match descend(alloc, room) {
        Err(_) => Err(Stop::Memory),
        Ok(Bottom::Total) => match give(alloc, room) {
            Err(stop) => Err(stop),
            Ok(answer) => Ok(Some(Event::Answer(answer))),
        },
        Ok(Bottom::Conflict(start)) => match overcome(alloc, room, start) {
            Err(stop) => Err(stop),
            Ok(()) => Ok(None),
        },
    }
}

// Whether the conflict of the limit's number was answered, and left no empty nogood.
fn is_at_limit(closed: bool, conflicts: u64, limit: u64) -> bool
    ensures over { IsTrue result → (conflicts ≡ limit) × (closed ≡ false) }
    ensures under { result ≡ false → closed ≡ false → conflicts ≡ limit → ⊥ }
{
    !closed && conflicts == limit
}

/// Searches on to the next answer, to the end, or to the conflict of the limit's number.
pub(crate) fn seek<P: Propagator>(
    alloc: Global,
    room: &mut Room<P>,
    conflicts: &mut u64,
    limit: u64,
) -> Result<Event, Stop>
    requires goes_on { GoesOn P.meaning P.stands P.looked room.old }
    requires below { conflicts.old < limit }
    ensures program { room.new.ground ≡ room.old.ground }
    ensures goes { IfOk result (λ event. Goes (searching_of room.old conflicts.old false) (searching_of room.new conflicts.new (is_exhausted event)) event) }
    ensures stays_on { IfOk result (λ event. StaysOn P.meaning P.stands P.looked room.new (Some event)) }
    ensures below { (answer : TheAnswer) → result ≡ Ok (the_event.Answer answer) → conflicts.new < limit }
    ensures within { IfOk result (λ event. conflicts.new ≤ limit) }
    ensures stop { (stop : TheStop) → IsErrOf result stop → Stops limit (searching_of room.old conflicts.old false) (searching_of room.new conflicts.new true) stop }
{
    'seek: loop {
        match turn(alloc, room) {
            Err(stop) => return Err(stop),
            Ok(Some(event)) => return Ok(event),
            Ok(None) => {}
        }
        *conflicts += 1;
        if is_at_limit(room.closed, *conflicts, limit) {
            return Err(Stop::Limit);
        }
    }
}
