// The search.
ghost use Rattle.std.specs.Prelude.{◌≡◌, ◌<◌, ◌≤◌, ◌^◌, false, true, List, map, length, IfOk, OnErr, IsErrOf, Ok};
ghost use Rattle.std.specs.List.{All};
ghost use Rattle.ground_model.specs.declared.answer.Answer.{Answer as TheAnswer};
ghost use Rattle.linear_normal.specs.Numbering as the_numbering;
ghost use Rattle.completion.specs.Inputs.{input_nogoods};
ghost use Rattle.trail.specs.Assignment.{Assignment as TheTrail};
ghost use Rattle.derivation_meaning.specs.State.{start};
ghost use Rattle.propagator_core.specs.Several.{AllFit, AllStand};
ghost use Rattle.trail_worlds.specs.Total.{shape_of};
ghost use Rattle.propagators.specs.Work.{DoTheWork};
ghost use Rattle.search_core.specs.declared.event.Event.TheVariants as the_event;
ghost use Rattle.search_core.specs.declared.event.Stop.{Stop as TheStop};
ghost use Rattle.search_core.specs.Searching.{begun, is_exhausted, Goes, Stops};

use crate::begin::begin;
use crate::event::{Event, Stop};
use crate::room::Room;
use crate::seek::seek;
use ground_model::GroundProgram;
use linear_normal::Numbered;
use literals::Nogood;
use propagator_core::Propagator;
use std::alloc::Global;
use std::marker::Model;
use symbols::{Listed, Memory};
use unfounded_sets::Unfounded;

/// A search for the constraint stable models of a program, one after another.
///
/// Clauses see the program, the state that the lines so far lead to, how many nogoods were learned, and
/// whether the search is spent.
#[derive(Drop)]
pub struct Search<P: Propagator> {
    alloc: Global,
    room: Room<P>,
    conflicts: u64,
    spent: bool,
}

impl<P: Propagator> Model for Search<P> {
    ghost use Rattle.std.specs.Prelude.{◌≡◌, ◌⊎◌, true};
    ghost use Rattle.std.specs.Coded.{codes};
    ghost use Rattle.symbols.specs.SymbolCode.{symbol_code};
    ghost use Rattle.search_core.specs.Searching.{Searching};
    ghost use Rattle.search_core.specs.inner.Rooms.{GoesOn, searching_of};

    ghost Value = { Searching };

    ghost coded = { Prim.hlevel (codes, symbol_code) };

    ghost view = { λ s. searching_of s.room s.conflicts s.spent };

    ghost invariant = { λ s. (s.spent ≡ true) ⊎ GoesOn P.meaning P.stands P.looked s.room };
}

impl<P: Propagator> Search<P> {
    /// A search that has found nothing yet.
    ///
    /// `numbered` is the numbering of the program, `input` its input nogoods, and the propagators are those of
    /// its constraints, which have looked at nothing yet. It takes a time that is linear in what it is given.
    pub fn new(
        alloc: Global,
        ground: GroundProgram,
        numbered: Numbered,
        input: Listed<Nogood>,
        propagators: Listed<P>,
    ) -> Result<Search<P>, Memory>
        requires numbered { numbered ≡ the_numbering.numbering ground }
        requires few_bodies { length numbered.bodies < 2 ^ 32 }
        requires few_constraints { length numbered.constraints < 2 ^ 32 }
        requires input { input ≡ input_nogoods ground }
        requires plain { ground.has_objective ≡ false }
        requires fit { AllFit (map P.meaning propagators) (shape_of ground) }
        requires new { (t : TheTrail) → AllStand P.stands P.looked propagators t }
        requires work { DoTheWork ground (map P.meaning propagators) }
        ensures { IfOk result (λ s. s ≡ begun ground (start ground)) }
    {
        let loops = Unfounded::new(alloc, &ground, &numbered)?;
        let room = begin(alloc, ground, numbered, loops, input, propagators)?;
        Ok(Search {
            alloc,
            room,
            conflicts: 0,
            spent: false,
        })
    }

    /// The program.
    pub fn ground(&self) -> &GroundProgram
        ensures { result.now ≡ self.now.program }
    {
        &self.room.ground
    }

    /// How many nogoods were learned: one a conflict.
    pub fn conflicts(&self) -> u64
        ensures { result ≡ self.now.conflicts }
    {
        self.conflicts
    }

    /// Whether nothing more is asked of it: it is exhausted, or it stopped.
    pub fn spent(&self) -> bool
        ensures { result ≡ self.now.spent }
    {
        self.spent
    }

    /// Searches on to the next answer, or until no model remains.
    ///
    /// What it does between is a list of valid lines of a derivation, which end in an `m` line for an answer and
    /// in a `q` line where none remains. It ends, since each conflict counts towards the limit, and between two of
    /// them the trail grows.
    pub fn next(&mut self, limit: u64) -> Result<Event, Stop>
        requires unspent { self.old.spent ≡ false }
        requires below { self.old.conflicts < limit }
        ensures program { self.new.program ≡ self.old.program }
        ensures goes { IfOk result (λ event. Goes self.old self.new event) }
        ensures answer { (answer : TheAnswer) → result ≡ Ok (the_event.Answer answer) → self.new.conflicts < limit }
        ensures within { IfOk result (λ event. self.new.conflicts ≤ limit) }
        ensures stop { (stop : TheStop) → IsErrOf result stop → Stops limit self.old self.new stop }
        ensures spent { IfOk result (λ event. self.new.spent ≡ is_exhausted event) }
        ensures stopped { OnErr result (self.new.spent ≡ true) }
    {
        match seek(self.alloc, &mut self.room, &mut self.conflicts, limit) {
            Err(stop) => {
                self.spent = true;
                Err(stop)
            }
            Ok(Event::Exhausted) => {
                self.spent = true;
                Ok(Event::Exhausted)
            }
            Ok(Event::Answer(answer)) => Ok(Event::Answer(answer)),
        }
    }
}
