// How many answers a program has.
ghost use Rattle.std.specs.Prelude.{◌≡◌, ◌<◌, ◌^◌, false, map, length, IsTrue, IfNone};
ghost use Rattle.std.specs.List.{list_any};
ghost use Rattle.linear_normal.specs.Numbering.{numbering};
ghost use Rattle.trail.specs.Assignment.{Assignment as TheTrail};
ghost use Rattle.propagator_core.specs.Several.{AllFit, AllStand};
ghost use Rattle.trail_worlds.specs.Total.{shape_of};
ghost use Rattle.propagators.specs.Work.{DoTheWork};
ghost use Rattle.propagators.specs.Tuples.{is_about_tuples};

use completion::complete;
use ground_model::GroundProgram;
use linear_normal::{Numbered, normalise};
use propagator_core::Propagator;
use propagators::{has_tuples, propagators_of};
use search_core::{Event, Search};
use std::alloc::Global;
use symbols::{Listed, Memory};

/// How many answers there are, and how many nogoods were learned.
#[derive(Clone, Copy, Debug)]
pub(crate) struct Answers {
    pub(crate) answers: u64,
    pub(crate) conflicts: u64,
}

// Asks for one more answer, and tells whether none remains where there is none.
fn step<P: Propagator>(search: &mut Search<P>, limit: u64) -> Option<bool>
    requires unspent { search.old.spent ≡ false }
    requires below { search.old.conflicts < limit }
    ensures unspent { IfNone result (search.new.spent ≡ false) }
    ensures below { IfNone result (search.new.conflicts < limit) }
{
    match search.next(limit) {
        Ok(Event::Answer(answer)) => {
            drop(answer);
            None
        }
        Ok(Event::Exhausted) => Some(true),
        Err(_) => Some(false),
    }
}

// How many answers there are, where they are no more than the most and fewer conflicts than the limit tell them.
fn count<P: Propagator>(search: &mut Search<P>, most: u64, limit: u64) -> Option<Answers>
    requires unspent { search.old.spent ≡ false }
    requires below { search.old.conflicts < limit }
{
    for answers in 0..most {
        if let Some(all) = step(search, limit) {
            return if all {
                Some(Answers {
                    answers,
                    conflicts: search.conflicts(),
                })
            } else {
                None
            };
        }
    }
    None
}

// How many answers a new search gives.
fn count_all<P: Propagator>(search: Search<P>) -> Option<Answers>
    requires unspent { search.spent ≡ false }
    requires below { search.conflicts ≡ 0 }
{
    let mut search = search;
    count(&mut search, 1 << 20, 1 << 20)
}

// How many answers a program has, with these propagators.
fn count_with<P: Propagator>(
    alloc: Global,
    ground: GroundProgram,
    numbered: Numbered,
    propagators: Listed<P>,
) -> Result<Option<Answers>, Memory>
    requires numbered { numbered ≡ numbering ground }
    requires few_bodies { length numbered.bodies < 2 ^ 32 }
    requires few_constraints { length numbered.constraints < 2 ^ 32 }
    requires plain { ground.has_objective ≡ false }
    requires fit { AllFit (map P.meaning propagators) (shape_of ground) }
    requires new { (t : TheTrail) → AllStand P.stands P.looked propagators t }
    requires work { DoTheWork ground (map P.meaning propagators) }
{
    let input = complete(alloc, &ground, &numbered)?;
    let search = Search::new(alloc, ground, numbered, input, propagators)?;
    Ok(count_all(search))
}

// How many answers a program has that the search takes.
fn counted(
    alloc: Global,
    ground: GroundProgram,
    numbered: Numbered,
) -> Result<Option<Answers>, Memory>
    requires numbered { numbered ≡ numbering ground }
    requires few_bodies { length numbered.bodies < 2 ^ 32 }
    requires few_constraints { length numbered.constraints < 2 ^ 32 }
    requires plain { ground.has_objective ≡ false }
    requires no_tuples { list_any is_about_tuples numbered.constraints ≡ false }
{
    let propagators = propagators_of(alloc, &ground, &numbered)?;
    count_with(alloc, ground, numbered, propagators)
}

// Whether the search takes the program.
fn is_taken(ground: &GroundProgram, numbered: &Numbered) -> bool
    ensures plain { IsTrue result → ground.now.has_objective ≡ false }
    ensures no_tuples { IsTrue result → list_any is_about_tuples numbered.now.constraints ≡ false }
{
    if ground.has_objective {
        return false;
    }
    !has_tuples(numbered)
}

/// How many answers a program has; nothing where the search does not take it.
pub(crate) fn count_of(alloc: Global, ground: GroundProgram) -> Result<Option<Answers>, Memory> {
    let numbered = normalise(alloc, &ground)?;
    if is_taken(&ground, &numbered) {
        return counted(alloc, ground, numbered);
    }
    Ok(None)
}
