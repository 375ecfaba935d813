// What is watched, and what was looked at.
ghost use Rattle.std.specs.Prelude.{◌≡◌, ℕ, ◌<◌, ◌≤◌, false, [], ◌∷◌, ◌++◌, List, length, replicate, slice_index_or, IsTrue, IfOk, OnOk};
ghost use Rattle.trail.specs.Assignment.{counts_of};
ghost use Rattle.nogood_store.specs.declared.slot.Slot.{Slot};
ghost use Rattle.nogood_store.specs.declared.watching.Look.{Look};
ghost use Rattle.nogood_store.specs.Holding.{Seen, seen_of, IsFront};
ghost use Rattle.nogood_store.specs.Propagation.{AllNamed};
ghost use Rattle.nogood_store.specs.Kept.{held_of};
ghost use Rattle.nogood_store.specs.inner.Watching.{IsStored, IsSame, IsWorking, IsLeft, Suits, Climbs, EndsBelow, EndsAbove, looks_of};

use crate::slot::Slot;
use crate::watch::WatchList;
use literals::{Lit, Places};
use std::alloc::{AllocError, Global};
use symbols::{Ends, Memory};
use trail::{Shape, Trail};

/// The two watched literals of a nogood, by their indices in it.
#[derive(Clone, Copy, Debug)]
pub(crate) struct Pair {
    pub(crate) first: usize,
    pub(crate) second: usize,
}

/// A literal that was looked at, and its level.
#[derive(Clone, Copy, Debug)]
pub(crate) struct Look {
    pub(crate) lit: Lit,
    pub(crate) level: usize,
}

/// The watches of the slots, and the literals that were looked at.
#[derive(Debug, Drop)]
pub(crate) struct Watching {
    pub(crate) alloc: Global,
    /// The shape that the lists are laid out for.
    pub(crate) shape: Shape,
    pub(crate) places: Places,
    /// The watches of each place.
    pub(crate) lists: Vec<WatchList>,
    /// The watched literals of each slot that was seen.
    pub(crate) pairs: Vec<Pair>,
    /// The slots that were seen and are not watched: each call looks at all of their literals.
    pub(crate) fresh: Vec<usize>,
    pub(crate) looked: Vec<Look>,
    /// While entries are looked at: the least level of those.
    pub(crate) low: usize,
}

impl Watching {
    /// No watch, for no shape.
    pub(crate) fn new(alloc: Global) -> Watching
        ensures places { result.places ≡ counts_of result.shape }
        ensures pairs { result.pairs.items ≡ [] }
        ensures lists { result.lists.items ≡ [] }
        ensures fresh { result.fresh.items ≡ [] }
        ensures looked { result.looked.items ≡ [] }
    {
        let shape = Shape {
            atoms: 0,
            bodies: 0,
            constraints: 0,
            variables: 0,
            ends: Ends::widest(),
        };
        Watching {
            alloc,
            shape,
            places: Places::new(shape.counts()),
            lists: Vec::new(alloc),
            pairs: Vec::new(alloc),
            fresh: Vec::new(alloc),
            looked: Vec::new(alloc),
            low: 0,
        }
    }
}

/// Watches nothing, and has looked at nothing.
pub(crate) fn forget(work: &mut Watching)
    ensures lists { work.new.lists.items ≡ [] }
    ensures pairs { work.new.pairs.items ≡ [] }
    ensures fresh { work.new.fresh.items ≡ [] }
    ensures looked { work.new.looked.items ≡ [] }
    ensures shape { work.new.shape ≡ work.old.shape }
    ensures places { work.new.places ≡ work.old.places }
    ensures low { work.new.low ≡ work.old.low }
{
    work.lists.clear();
    work.pairs.clear();
    work.fresh.clear();
    work.looked.clear();
}

// So many lists of no watch.
fn empty_lists(alloc: Global, count: usize) -> Result<Vec<WatchList>, AllocError>
    ensures { IfOk result (λ lists. lists.items ≡ replicate count []) }
{
    let mut lists = Vec::new(alloc);
    for _ in 0..count {
        lists.push(WatchList::new(alloc))?;
    }
    Ok(lists)
}

// Whether the lists are laid out for the shape.
fn suits(work: &Watching, shape: Shape) -> bool
    requires { work.now.places ≡ counts_of work.now.shape }
    ensures { IsTrue result → Suits work.now shape }
{
    if work.shape == shape {
        work.lists.len() == work.places.count()
    } else {
        false
    }
}

// Lays out lists for the shape, with nothing watched and nothing looked at, if they are not for it yet.
fn suit(work: &mut Watching, shape: Shape) -> Result<(), Memory>
    requires { work.old.places ≡ counts_of work.old.shape }
    ensures stored { (slots : List Slot) → IsStored slots work.old → IsStored slots work.new }
    ensures front { (all : List Seen) → IsFront (looks_of work.old.looked.items) all → IsFront (looks_of work.new.looked.items) all }
    ensures suits { OnOk result (Suits work.new shape) }
{
    if suits(work, shape) {
        return Ok(());
    }
    let places = Places::new(shape.counts());
    let lists = empty_lists(work.alloc, places.count())?;
    forget(work);
    work.shape = shape;
    work.places = places;
    work.lists = lists;
    Ok(())
}

// Takes the slots that were not seen as fresh ones.
fn enlist(slots: &[Slot], work: &mut Watching) -> Result<(), Memory>
    requires { IsStored slots.now work.old }
    ensures stored { IsStored slots.now work.new }
    ensures same { IsSame work.old work.new }
    ensures pairs { OnOk result (length work.new.pairs.items ≡ length slots.now) }
{
    'enlist: while work.pairs.len() < slots.len() {
        work.fresh.push(work.pairs.len())?;
        work.pairs.push(Pair {
            first: 0,
            second: 0,
        })?;
    }
    Ok(())
}

/// Makes ready to look at entries of a trail: lists for its shape, and each slot seen.
pub(crate) fn prepare(slots: &[Slot], work: &mut Watching, trail: &Trail) -> Result<(), Memory>
    requires stored { IsStored slots.now work.old }
    requires named { AllNamed trail.now.shape (held_of slots.now) }
    requires front { IsFront (looks_of work.old.looked.items) (seen_of trail.now.entries) }
    ensures ok { OnOk result (IsWorking slots.now work.new trail.now) }
    ensures level { OnOk result (work.new.low ≡ trail.now.level) }
    ensures left { IsLeft slots.now work.new }
    ensures front { IsFront (looks_of work.new.looked.items) (seen_of trail.now.entries) }
{
    let shape = trail.shape();
    suit(work, shape)?;
    enlist(slots, work)?;
    work.shape = shape;
    work.low = trail.level();
    Ok(())
}

/// One more entry of this level is looked at.
pub(crate) fn lower(work: &mut Watching, level: usize)
    ensures value { work.new ≡ record work.old { low = work.new.low } }
    ensures below { work.new.low ≤ level }
    ensures falls { work.new.low ≤ work.old.low }
{
    if level < work.low {
        work.low = level;
    }
}

// Whether something was looked at, the last of it at the low level or above.
fn is_over(work: &Watching) -> bool
    ensures yes_ { IsTrue result → EndsAbove work.now.low work.now.looked.items }
    ensures not { result ≡ false → EndsBelow work.now.low work.now.looked.items }
{
    let count = work.looked.len();
    if count == 0 {
        return false;
    }
    if work.looked[count - 1].level < work.low {
        return false;
    }
    true
}

// Drops the last that was looked at.
fn drop_last(looked: &mut Vec<Look>)
    ensures { (front : List Look) → (last : Look) → looked.old.items ≡ front ++ last ∷ [] → looked.new.items ≡ front }
{
    looked.pop();
}

/// Forgets what was looked at at the low level and above.
pub(crate) fn cut(work: &mut Watching)
    ensures stored { (slots : List Slot) → IsLeft slots work.old → IsStored slots work.new }
    ensures front { IsFront (looks_of work.new.looked.items) (looks_of work.old.looked.items) }
    ensures below { Climbs (looks_of work.old.looked.items) → (k : ℕ) (d : Look) → k < length work.new.looked.items → (slice_index_or work.new.looked.items k d).level < work.old.low }
{
    if work.low == 0 {
        forget(work);
        return;
    }
    'back: while is_over(work) {
        drop_last(&mut work.looked);
    }
}

/// What is left at rest: an entry below the open level is to be looked at again.
pub(crate) fn rest(work: &mut Watching, level: usize)
    ensures stored { (slots : List Slot) → IsLeft slots work.old → (level ≤ work.old.low → IsStored slots work.old) → IsStored slots work.new }
    ensures front { IsFront (looks_of work.new.looked.items) (looks_of work.old.looked.items) }
{
    if work.low < level {
        cut(work);
    }
}

/// Keeps no more than so many of the literals that were looked at, and whole levels.
pub(crate) fn shorten(work: &mut Watching, most: usize)
    ensures stored { (slots : List Slot) → IsStored slots work.old → IsStored slots work.new }
    ensures front { IsFront (looks_of work.new.looked.items) (looks_of work.old.looked.items) }
    ensures within { (slots : List Slot) → IsStored slots work.old → length work.new.looked.items ≤ most }
{
    if most < work.looked.len() {
        work.low = work.looked[most].level;
        cut(work);
    }
}
