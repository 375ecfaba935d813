// Steps of a search: it decides, and it goes back.
ghost use Rattle.std.specs.Prelude.{◌≡◌, ◌≤◌, ◌+◌, ℕ, List, [], map, length, None, OnOk, IsTrue};
ghost use Rattle.propagator_core.specs.Meaning.{Meaning};
ghost use Rattle.propagator_core.specs.Standing.{StandsFor};
ghost use Rattle.propagator_core.specs.Several.{AllFit, AllStand};
ghost use Rattle.nogood_store.specs.Holding.{IsFront, seen_of};
ghost use Rattle.trail.specs.declared.entry.Why.TheVariants.{Decision as Decided};
ghost use Rattle.trail.specs.Assignment.{Assignment as TheTrail, IsAssignment, Names, truth_on, undone_to, with_entry, entry_of};
ghost use Rattle.propagation.specs.Waking.{HasRows, KeepsRest};
ghost use Rattle.propagation.specs.Causes.{opened};

use crate::queue::Queue;
use crate::wakes::{Wakes, wake_from};
use literals::Lit;
use nogood_store::Store;
use propagator_core::Propagator;
use symbols::Memory;
use trail::{Trail, Why};

// Undoes the propagator, if it had looked past the trail's length.
fn undo_one<P: Propagator>(propagator: &mut P, trail: &Trail)
    requires fit { IsTrue ((P.meaning propagator.old).fits trail.now.shape) }
    requires stand { (t : TheTrail) × (level : ℕ) × IsAssignment t × StandsFor (P.stands propagator.old) (P.looked propagator.old) t × (trail.now ≡ undone_to level t) }
    ensures meaning { P.meaning propagator.new ≡ P.meaning propagator.old }
    ensures stand { StandsFor (P.stands propagator.new) (P.looked propagator.new) trail.now }
{
    if propagator.seen() <= trail.length() {
        return;
    }
    propagator.undo(trail);
}

// Undoes the propagators that had looked past the trail's length. It looks at each once.
fn undo_all<P: Propagator>(propagators: &mut [P], trail: &Trail)
    requires fit { AllFit (map P.meaning propagators.old) trail.now.shape }
    requires stand { (t : TheTrail) × (level : ℕ) × IsAssignment t × AllStand P.stands P.looked propagators.old t × (trail.now ≡ undone_to level t) }
    ensures meanings { map P.meaning propagators.new ≡ map P.meaning propagators.old }
    ensures stand { AllStand P.stands P.looked propagators.new trail.now }
{
    for at in 0..propagators.len() {
        undo_one(&mut propagators[at], trail);
    }
}

/// Goes back to the level. No propagator is awake there: where all rested when the next level was opened,
/// they rest again. It costs what is undone and the number of propagators, and takes no memory.
pub fn go_back<P: Propagator>(
    store: &mut Store,
    propagators: &mut [P],
    awake: &mut Queue,
    trail: &mut Trail,
    level: usize,
)
    requires level { level ≤ trail.old.level }
    requires fit { AllFit (map P.meaning propagators.old) trail.old.shape }
    requires stand { AllStand P.stands P.looked propagators.old trail.old }
    requires looked { IsFront store.old.looked (seen_of trail.old.entries) }
    ensures trail { trail.new ≡ undone_to level trail.old }
    ensures meanings { map P.meaning propagators.new ≡ map P.meaning propagators.old }
    ensures stand { AllStand P.stands P.looked propagators.new trail.new }
    ensures held { store.new.held ≡ store.old.held }
    ensures looked { IsFront store.new.looked (seen_of trail.new.entries) }
    ensures count { awake.new.count ≡ awake.old.count }
    ensures none { awake.new.places ≡ [] }
{
    awake.clear();
    let length = trail.length();
    trail.undo_to(level);
    store.undo(trail);
    if trail.length() == length {
        return;
    }
    undo_all(propagators, trail);
}

/// Decides the literal at a new level, and wakes the propagators that look at it. It costs their number.
pub fn decide(wakes: &Wakes, awake: &mut Queue, trail: &mut Trail, lit: Lit) -> Result<(), Memory>
    requires rows { HasRows trail.old.shape awake.old.count wakes.now }
    requires names { Names trail.old.shape lit }
    requires is_open { truth_on trail.old lit ≡ None }
    ensures trail { OnOk result (trail.new ≡ with_entry (opened trail.old) (entry_of (opened trail.old) lit Decided)) }
    ensures others { OnOk result ((ms : List Meaning) → KeepsRest wakes.now ms awake.old.places awake.new.places trail.old trail.new) }
    ensures count { awake.new.count ≡ awake.old.count }
{
    let from = trail.length();
    trail.open_level()?;
    trail.set(lit, Why::Decision)?;
    wake_from(wakes, awake, trail, from)
}
