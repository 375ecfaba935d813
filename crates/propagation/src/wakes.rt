// Which propagators look at what.
ghost use Rattle.std.specs.Prelude.{◌≡◌, ◌≤◌, ◌<◌, ◌+◌, ◌^◌, ℕ, List, [], length, map, get_or, Contains, IfOk, OnOk};
ghost use Rattle.std.specs.List.{All, AllByRecursion};
ghost use Rattle.trail.specs.declared.shape.Shape.{Shape as TheShape};
ghost use Rattle.trail.specs.Assignment.{Names};
ghost use Rattle.propagator_core.specs.Meaning.{Meaning};
ghost use Rattle.propagator_core.specs.Quiet.{IsSteady};
ghost use Rattle.propagation.specs.Waking.{HasRows, AreWithin, AreWakes, row_of};
ghost use Rattle.propagation.specs.inner.Hearing.{IsHeard, AreHeard, IsKept, AreKept, EachIsKept, StandsIn};

use crate::queue::Queue;
use literals::Lit;
use propagator_core::{Propagator, Touch};
use std::alloc::Global;
use std::marker::Model;
use symbols::{Listed, Memory};
use trail::{Shape, Trail};

/// For each variable the places of the propagators that look at its bounds, and for each constraint of
/// those that look at its truth.
#[derive(Debug, Drop)]
pub struct Wakes {
    bounds: Vec<Listed<usize>>,
    truths: Vec<Listed<usize>>,
}

impl Model for Wakes {
    ghost use Rattle.propagation.specs.Waking.{Rows};

    ghost Value = { Rows };

    ghost view = { λ w. record { bounds = w.bounds.items; truths = w.truths.items } };
}

// Adds empty rows until there are so many.
fn add_rows(alloc: Global, rows: &mut Vec<Listed<usize>>, count: usize) -> Result<(), Memory>
    ensures long { OnOk result (count ≤ length rows.new.items) }
    ensures longer { OnOk result (length rows.old.items ≤ length rows.new.items) }
    ensures kept { OnOk result (EachIsKept rows.old.items rows.new.items) }
    ensures within { OnOk result ((n : ℕ) → AreWithin n rows.old.items → AreWithin n rows.new.items) }
{
    for _row in rows.len()..count {
        rows.push(Listed::new(alloc))?;
    }
    Ok(())
}

// Puts the place into the row.
fn put(alloc: Global, rows: &mut Vec<Listed<usize>>, at: usize, place: usize) -> Result<(), Memory>
    requires at { at < 2 ^ 32 }
    ensures longer { OnOk result (length rows.old.items ≤ length rows.new.items) }
    ensures kept { OnOk result (EachIsKept rows.old.items rows.new.items) }
    ensures there { OnOk result (Contains (get_or rows.new.items at []) place) }
    ensures within { OnOk result ((n : ℕ) → place < n → AreWithin n rows.old.items → AreWithin n rows.new.items) }
{
    add_rows(alloc, rows, at + 1)?;
    rows[at].push(place)?;
    Ok(())
}

// Puts the place into the row of what is touched.
fn note(alloc: Global, wakes: &mut Wakes, touch: Touch, place: usize) -> Result<(), Memory>
    ensures kept { OnOk result (AreKept wakes.old wakes.new) }
    ensures there { OnOk result (Contains (row_of wakes.new touch) place) }
    ensures rows { OnOk result ((s : TheShape) (n : ℕ) → place < n → HasRows s n wakes.old → HasRows s n wakes.new) }
{
    match touch {
        Touch::Bounds(x) => put(alloc, &mut wakes.bounds, x as usize, place),
        Touch::Truth(c) => put(alloc, &mut wakes.truths, c as usize, place),
    }
}

// Puts the propagator of this place into the rows of all that it touches.
fn note_all<P: Propagator>(
    alloc: Global,
    wakes: &mut Wakes,
    propagator: &P,
    place: usize,
) -> Result<(), Memory>
    ensures kept { OnOk result (AreKept wakes.old wakes.new) }
    ensures there { OnOk result (StandsIn wakes.new place (P.meaning propagator.now).touches) }
    ensures steady { OnOk result (IsSteady (P.meaning propagator.now)) }
    ensures rows { OnOk result ((s : TheShape) (n : ℕ) → place < n → HasRows s n wakes.old → HasRows s n wakes.new) }
{
    let touches = propagator.touches(alloc)?;
    for touch in touches.items() {
        note(alloc, wakes, *touch, place)?;
    }
    Ok(())
}

// An empty row for each variable and each constraint.
fn empty(alloc: Global, shape: Shape) -> Result<Wakes, Memory>
    ensures { IfOk result (λ wakes. (n : ℕ) → HasRows shape n wakes) }
{
    let mut wakes = Wakes {
        bounds: Vec::new(alloc),
        truths: Vec::new(alloc),
    };
    add_rows(alloc, &mut wakes.bounds, shape.variables as usize + 1)?;
    add_rows(alloc, &mut wakes.truths, shape.constraints as usize + 1)?;
    Ok(wakes)
}

// Wakes those of the row.
fn wake_row(row: &[usize], awake: &mut Queue) -> Result<(), Memory>
    requires { AllByRecursion (λ i. i < awake.old.count) row.now }
    ensures count { awake.new.count ≡ awake.old.count }
    ensures kept { IsKept awake.old.places awake.new.places }
    ensures all { OnOk result (IsKept row.now awake.new.places) }
{
    for place in row {
        awake.wake(*place)?;
    }
    Ok(())
}

impl Wakes {
    /// The rows of these propagators for trails over the shape. It asks each propagator once for what it
    /// touches.
    pub fn new<P: Propagator>(
        alloc: Global,
        shape: Shape,
        propagators: &[P],
    ) -> Result<Wakes, Memory>
        ensures rows { IfOk result (λ wakes. HasRows shape (length propagators.now) wakes) }
        ensures wakes { IfOk result (λ wakes. AreWakes wakes (map P.meaning propagators.now)) }
        ensures steady { OnOk result (All IsSteady (map P.meaning propagators.now)) }
    {
        let mut wakes = empty(alloc, shape)?;
        for place in 0..propagators.len() {
            note_all(alloc, &mut wakes, &propagators[place], place)?;
        }
        Ok(wakes)
    }

    // Wakes the propagators that look at the literal. It costs their number.
    fn wake(&self, lit: Lit, awake: &mut Queue) -> Result<(), Memory>
        requires rows { (s : TheShape) × HasRows s awake.old.count self.now × Names s lit }
        ensures count { awake.new.count ≡ awake.old.count }
        ensures kept { IsKept awake.old.places awake.new.places }
        ensures heard { OnOk result ((ms : List Meaning) → AreWakes self.now ms → IsHeard ms awake.new.places lit) }
    {
        match lit {
            Lit::Atom(..) | Lit::Body(..) => Ok(()),
            Lit::Constraint(c, _) => wake_row(self.truths[c as usize].items(), awake),
            Lit::AtMost(x, _) | Lit::AtLeast(x, _) => wake_row(
                self.bounds[x as usize].items(),
                awake,
            ),
        }
    }
}

// Wakes the propagators that look at the entries from this place on. It costs these entries and those that
// are woken.
pub(crate) fn wake_from(
    wakes: &Wakes,
    awake: &mut Queue,
    trail: &Trail,
    from: usize,
) -> Result<(), Memory>
    requires rows { HasRows trail.now.shape awake.old.count wakes.now }
    requires from { from ≤ length trail.now.entries }
    ensures count { awake.new.count ≡ awake.old.count }
    ensures kept { IsKept awake.old.places awake.new.places }
    ensures heard { OnOk result ((ms : List Meaning) → AreWakes wakes.now ms → AreHeard ms awake.new.places trail.now.entries from (length trail.now.entries)) }
    ensures same { from ≡ length trail.now.entries → awake.new ≡ awake.old }
{
    for at in from..trail.length() {
        wakes.wake(trail.entry(at).lit, awake)?;
    }
    Ok(())
}
