// A new search.
ghost use Rattle.std.specs.Prelude.{◌≡◌, ◌<◌, ◌^◌, false, map, length, IfOk};
ghost use Rattle.linear_normal.specs.Numbering as the_numbering;
ghost use Rattle.completion.specs.Inputs.{input_nogoods};
ghost use Rattle.trail.specs.Assignment.{Assignment as TheTrail};
ghost use Rattle.derivation_meaning.specs.State.{start, holds_empty};
ghost use Rattle.propagator_core.specs.Several.{AllFit, AllStand};
ghost use Rattle.propagation.specs.Waking.{OthersRest};
ghost use Rattle.trail_worlds.specs.Total.{shape_of};
ghost use Rattle.unfounded_sets.specs.Dependence.{dependence_of};
ghost use Rattle.learning.specs.Known.{state_of};
ghost use Rattle.propagators.specs.Work.{DoTheWork};
ghost use Rattle.search_core.specs.inner.Invariant.{IsSearch};
ghost use Rattle.search_core.specs.inner.Rooms.{GoesOn, state_in};

use crate::pieces::{Holdings, Tools, holdings_for, tools_for};
use crate::room::Room;
use conflict_analysis::Marks;
use decisions::Restarts;
use ground_model::GroundProgram;
use linear_normal::Numbered;
use literals::Nogood;
use propagator_core::Propagator;
use std::alloc::Global;
use symbols::{Listed, Memory};
use trail::Shape;
use unfounded_sets::Unfounded;

// The shape of the program's trails.
fn shape_for(ground: &GroundProgram, numbered: &Numbered) -> Shape
    requires numbered { numbered.now ≡ the_numbering.numbering ground.now }
    requires few_bodies { length numbered.now.bodies < 2 ^ 32 }
    requires few_constraints { length numbered.now.constraints < 2 ^ 32 }
    ensures { result ≡ shape_of ground.now }
{
    Shape {
        atoms: ground.atoms.len() as u32,
        bodies: numbered.bodies.len() as u32,
        constraints: numbered.constraints.len() as u32,
        variables: ground.variables.len() as u32,
        ends: ground.ends,
    }
}

// All that a search works with, of its pieces.
fn room_of<P: Propagator>(
    alloc: Global,
    ground: GroundProgram,
    loops: Unfounded,
    propagators: Vec<P>,
    holdings: Holdings,
    tools: Tools,
) -> Room<P>
    requires search { IsSearch ground holdings.notes holdings.store holdings.trail (map P.meaning propagators.items) tools.wakes }
    requires stand { AllStand P.stands P.looked propagators.items holdings.trail }
    requires count { tools.awake.count ≡ length propagators.items }
    requires closed { holdings.closed ≡ holds_empty (state_of holdings.store.held holdings.notes) }
    requires loops { loops ≡ dependence_of ground }
    requires rested { OthersRest tools.awake.places (map P.meaning propagators.items) holdings.trail }
    ensures goes_on { GoesOn P.meaning P.stands P.looked result }
    ensures program { result.ground ≡ ground }
    ensures state { state_in result ≡ state_of holdings.store.held holdings.notes }
{
    let Holdings {
        trail,
        store,
        notes,
        closed,
    } = holdings;
    let Tools {
        wakes,
        awake,
        advice,
    } = tools;
    Room {
        ground,
        trail,
        store,
        loops,
        propagators,
        wakes,
        awake,
        advice,
        restarts: Restarts::new(),
        marks: Marks::new(alloc),
        notes,
        closed,
    }
}

/// All that a search works with, before the first line.
pub(crate) fn begin<P: Propagator>(
    alloc: Global,
    ground: GroundProgram,
    numbered: Numbered,
    loops: Unfounded,
    input: Listed<Nogood>,
    propagators: Listed<P>,
) -> Result<Room<P>, Memory>
    requires numbered { numbered ≡ the_numbering.numbering ground }
    requires few_bodies { length numbered.bodies < 2 ^ 32 }
    requires few_constraints { length numbered.constraints < 2 ^ 32 }
    requires loops { loops ≡ dependence_of ground }
    requires input { input ≡ input_nogoods ground }
    requires plain { ground.has_objective ≡ false }
    requires fit { AllFit (map P.meaning propagators) (shape_of ground) }
    requires new { (t : TheTrail) → AllStand P.stands P.looked propagators t }
    requires work { DoTheWork ground (map P.meaning propagators) }
    ensures goes_on { IfOk result (λ room. GoesOn P.meaning P.stands P.looked room) }
    ensures program { IfOk result (λ room. room.ground ≡ ground) }
    ensures state { IfOk result (λ room. state_in room ≡ start ground) }
{
    let shape = shape_for(&ground, &numbered);
    let propagators = propagators.into_vec();
    let holdings = holdings_for(alloc, shape, input)?;
    let tools = tools_for(alloc, shape, &propagators)?;
    Ok(room_of(alloc, ground, loops, propagators, holdings, tools))
}
