// What a search works with.
ghost use Rattle.std.specs.Prelude.{◌<◌, ◌^◌, length};
ghost use Rattle.trail.specs.Assignment.{IsAssignment};

use crate::notes::Notes;
use conflict_analysis::Marks;
use decisions::{Advice, Restarts};
use ground_model::GroundProgram;
use nogood_store::Store;
use propagation::{Queue, Wakes};
use propagator_core::Propagator;
use trail::Trail;
use unfounded_sets::Unfounded;

/// All that a search works with.
#[derive(Drop)]
pub(crate) struct Room<P: Propagator> {
    /// The program. It never changes.
    pub(crate) ground: GroundProgram,
    /// What is set, with its levels and reasons.
    pub(crate) trail: Trail,
    /// The nogoods that are held: inputs, learned ones, and those of answers.
    pub(crate) store: Store,
    /// What supports what in the program, and where unfounded sets are sought.
    pub(crate) loops: Unfounded,
    /// The constraints at work; which of them look at what, and which have to be called.
    pub(crate) propagators: Vec<P>,
    pub(crate) wakes: Wakes,
    pub(crate) awake: Queue,
    /// What to decide next, and when to begin anew. No clause speaks of them.
    pub(crate) advice: Advice,
    pub(crate) restarts: Restarts,
    /// Room for analysis.
    pub(crate) marks: Marks,
    /// What the lines so far have taken and given.
    pub(crate) notes: Notes,
    /// Whether the empty nogood is held.
    pub(crate) closed: bool,
}

/// What holds of every trail: it is an assignment, and its entries can be counted.
pub(crate) fn trails_are_assignments(trail: &Trail)
    ensures assignment { IsAssignment trail.now }
    ensures few { length trail.now.entries < 2 ^ 64 }
{
    let _ = trail.length();
}
