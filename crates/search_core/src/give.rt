// An answer is given: its nogood is held, at level 0.
ghost use Rattle.std.specs.Prelude.{◌≡◌, ◌+◌, ◌^◌, false, IfOk, OnOk, IsErrOf};
ghost use Rattle.ground_model.specs.Answers.{IsAnswerOf};
ghost use Rattle.derivation_meaning.specs.Lines as lines;
ghost use Rattle.trail_worlds.specs.Worlds.{answer_on};
ghost use Rattle.search_core.specs.inner.Lines.{Gives};
ghost use Rattle.search_core.specs.inner.Rooms.{IsRoom, IsRested, IsBottom, GoesOn, state_in};

use crate::event::Stop;
use crate::room::{Room, trails_are_assignments};
use decisions::answer_of;
use derivation_meaning::answer_nogood;
use ground_model::Answer;
use literals::Nogood;
use propagation::go_back;
use propagator_core::Propagator;
use std::alloc::Global;
use symbols::Memory;

// The answer that the trail says.
fn say<P: Propagator>(alloc: Global, room: &Room<P>) -> Result<Answer, Memory>
    requires room { IsRoom P.meaning P.stands P.looked room.now }
    requires bottom { IsBottom P.meaning room.now }
    ensures value { IfOk result (λ answer. answer ≡ answer_on room.now.trail) }
    ensures answer { IfOk result (λ answer. IsAnswerOf room.now.ground answer) }
{
    trails_are_assignments(&room.trail);
    answer_of(alloc, &room.trail)
}

// Holds the nogood of the answer under the next id, at level 0.
fn hold<P: Propagator>(
    room: &mut Room<P>,
    id: u64,
    answer: Answer,
    nogood: Nogood,
) -> Result<(), Memory>
    requires room { IsRoom P.meaning P.stands P.looked room.old }
    requires bottom { IsBottom P.meaning room.old }
    requires next { room.old.notes.next ≡ id }
    requires answer { answer ≡ answer_on room.old.trail }
    requires nogood { nogood ≡ lines.answer_nogood room.old.ground answer }
    requires open { room.old.closed ≡ false }
    ensures goes_on { OnOk result (GoesOn P.meaning P.stands P.looked room.new) }
    ensures gives { OnOk result (Gives room.old.ground (state_in room.old) (state_in room.new) answer) }
    ensures program { room.new.ground ≡ room.old.ground }
{
    trails_are_assignments(&room.trail);
    room.advice.undoing(&room.trail, 0);
    go_back(
        &mut room.store,
        &mut room.propagators,
        &mut room.awake,
        &mut room.trail,
        0,
    );
    room.closed = nogood.lits().is_empty();
    room.store.add(id, nogood)?;
    room.notes.give(id, answer)?;
    Ok(())
}

// Gives the answer of the trail under the next id.
fn give_under<P: Propagator>(alloc: Global, room: &mut Room<P>, id: u64) -> Result<Answer, Memory>
    requires room { IsRoom P.meaning P.stands P.looked room.old }
    requires bottom { IsBottom P.meaning room.old }
    requires next { room.old.notes.next ≡ id }
    requires open { room.old.closed ≡ false }
    ensures goes_on { OnOk result (GoesOn P.meaning P.stands P.looked room.new) }
    ensures gives { IfOk result (λ answer. Gives room.old.ground (state_in room.old) (state_in room.new) answer) }
    ensures program { room.new.ground ≡ room.old.ground }
{
    let answer = say(alloc, room)?;
    let nogood = answer_nogood(alloc, &room.ground, &answer)?;
    let given = say(alloc, room)?;
    hold(room, id, given, nogood)?;
    Ok(answer)
}

/// Gives the answer of the trail, on which all is decided and nothing is left to propagate.
pub(crate) fn give<P: Propagator>(alloc: Global, room: &mut Room<P>) -> Result<Answer, Stop>
    requires room { IsRoom P.meaning P.stands P.looked room.old }
    requires bottom { IsBottom P.meaning room.old }
    requires open { room.old.closed ≡ false }
    ensures goes_on { OnOk result (GoesOn P.meaning P.stands P.looked room.new) }
    ensures gives { IfOk result (λ answer. Gives room.old.ground (state_in room.old) (state_in room.new) answer) }
    ensures program { room.new.ground ≡ room.old.ground }
    ensures full { IsErrOf result Stop.Limit → (state_in room.old).next ≡ 2 ^ 64 }
{
    match room.notes.last().checked_add(1) {
        None => Err(Stop::Limit),
        Some(id) => match give_under(alloc, room, id) {
            Err(_) => Err(Stop::Memory),
            Ok(answer) => Ok(answer),
        },
    }
}
