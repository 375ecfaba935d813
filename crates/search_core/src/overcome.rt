// A conflict is answered: what is learned from it is held, at the level to which the search goes back.
ghost use Rattle.std.specs.Prelude.{◌≡◌, ◌⊎◌, ◌≤◌, [], false, OnOk, IsErrOf, IfOk};
ghost use Rattle.std.specs.List.{AllByRecursion};
ghost use Rattle.trail.specs.Assignment.{Names};
ghost use Rattle.conflict_analysis.specs.Levels.{IsAsserting};
ghost use Rattle.learning.specs.Learning.{Lead, IsLesson, IsFull};
ghost use Rattle.search_core.specs.inner.Lines.{IsFullAt};
ghost use Rattle.search_core.specs.inner.Rooms.{IsRoom, GoesOn, IsMet, Keeps, state_in};

use crate::event::Stop;
use crate::room::{Room, trails_are_assignments};
use conflict_analysis::{Learned, Start};
use learning::{Lesson, NoLesson, learn};
use literals::Nogood;
use propagation::go_back;
use propagator_core::Propagator;
use std::alloc::Global;
use symbols::Memory;

// What is learned from the nogood, all of whose literals are true.
fn study<P: Propagator>(alloc: Global, room: &mut Room<P>, start: Start) -> Result<Lesson, NoLesson>
    requires room { IsRoom P.meaning P.stands P.looked room.old }
    requires met { IsMet P.meaning room.old start }
    ensures room { IsRoom P.meaning P.stands P.looked room.new }
    ensures keeps { Keeps room.old room.new }
    ensures trail { room.new.trail ≡ room.old.trail }
    ensures lesson { IfOk result (λ lesson. IsLesson room.old.ground room.old.notes room.old.store.held lesson.learned lesson.id) }
    ensures named { IfOk result (λ lesson. AllByRecursion (Names room.old.trail.shape) lesson.learned.nogood) }
    ensures asserting { IfOk result (λ lesson. (lesson.learned.nogood ≡ []) ⊎ IsAsserting room.old.trail lesson.learned.nogood lesson.learned.level) }
    ensures lowest { IfOk result (λ lesson. lesson.learned.nogood ≡ [] → lesson.learned.level ≡ 0) }
    ensures full { IsErrOf result NoLesson.Full → IsFull room.old.ground room.old.notes room.old.store.held }
{
    learn(
        alloc,
        &mut room.marks,
        &room.trail,
        &room.store,
        room.notes.last(),
        start,
    )
}

// The level to go back to for what was learned: its own, or the lowest where the search begins anew.
fn level_for<P: Propagator>(room: &mut Room<P>, learned: &Learned) -> usize
    requires room { IsRoom P.meaning P.stands P.looked room.old }
    ensures room { IsRoom P.meaning P.stands P.looked room.new }
    ensures keeps { Keeps room.old room.new }
    ensures trail { room.new.trail ≡ room.old.trail }
    ensures level { result ≤ learned.now.level }
{
    room.advice.learned(learned);
    if room.restarts.conflict() {
        return 0;
    }
    learned.level
}

// Holds what was learned, at this level.
fn hold<P: Propagator>(room: &mut Room<P>, lesson: Lesson, level: usize) -> Result<(), Memory>
    requires room { IsRoom P.meaning P.stands P.looked room.old }
    requires open { room.old.closed ≡ false }
    requires lesson { IsLesson room.old.ground room.old.notes room.old.store.held lesson.learned lesson.id }
    requires named { AllByRecursion (Names room.old.trail.shape) lesson.learned.nogood }
    requires asserting { (lesson.learned.nogood ≡ []) ⊎ IsAsserting room.old.trail lesson.learned.nogood lesson.learned.level }
    requires lowest { lesson.learned.nogood ≡ [] → lesson.learned.level ≡ 0 }
    requires level { level ≤ lesson.learned.level }
    ensures goes_on { OnOk result (GoesOn P.meaning P.stands P.looked room.new) }
    ensures lead { OnOk result (Lead room.old.ground (state_in room.old) (state_in room.new) 1) }
    ensures program { room.new.ground ≡ room.old.ground }
{
    trails_are_assignments(&room.trail);
    let Lesson { learned, id } = lesson;
    let Learned { nogood, .. } = learned;
    room.advice.undoing(&room.trail, level);
    go_back(
        &mut room.store,
        &mut room.propagators,
        &mut room.awake,
        &mut room.trail,
        level,
    );
    room.closed = nogood.lits().is_empty();
    room.store.add(id, nogood)?;
    room.notes.take(id);
    Ok(())
}

/// Answers the conflict by what is learned from it.
pub(crate) fn overcome<P: Propagator>(
    alloc: Global,
    room: &mut Room<P>,
    start: Start,
) -> Result<(), Stop>
    requires room { IsRoom P.meaning P.stands P.looked room.old }
    requires met { IsMet P.meaning room.old start }
    requires open { room.old.closed ≡ false }
    ensures goes_on { OnOk result (GoesOn P.meaning P.stands P.looked room.new) }
    ensures lead { OnOk result (Lead room.old.ground (state_in room.old) (state_in room.new) 1) }
    ensures program { room.new.ground ≡ room.old.ground }
    ensures full { IsErrOf result Stop.Limit → IsFullAt room.old.ground (state_in room.old) }
{
    match study(alloc, room, start) {
        Err(NoLesson::Full) => Err(Stop::Limit),
        Err(NoLesson::Memory) => Err(Stop::Memory),
        Ok(lesson) => {
            let level = level_for(room, &lesson.learned);
            match hold(room, lesson, level) {
                Err(_) => Err(Stop::Memory),
                Ok(()) => Ok(()),
            }
        }
    }
}
