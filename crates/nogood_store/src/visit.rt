// Looking at the watches that an entry makes true.
ghost use Rattle.std.specs.Prelude.{◌≡◌, ◌<◌, ◌≤◌, ◌+◌, true, cond, length, slice_index_or, IfSome, IfNone, IfOk, OnOk, OnErr};
ghost use Rattle.literals.specs.declared.lit.Lit.{Lit};
ghost use Rattle.literals.specs.Places.{IsCounted, place_of, places_of};
ghost use Rattle.trail.specs.Assignment.{is_true_on, IsOf, Names};
ghost use Rattle.trail.specs.Growth.{Grows};
ghost use Rattle.nogood_store.specs.Propagation.{IsForced, IsConflict};
ghost use Rattle.nogood_store.specs.Kept.{held_of};
ghost use Rattle.nogood_store.specs.inner.Watching.{IsWorking, IsSound, IsKept, IsDone, Shifts, list_at, with_watch};

use crate::scan::{close, is_false, untrue};
use crate::slot::{Slot, lits_of};
use crate::watch::Watch;
use crate::watching::{Pair, Watching};
use literals::{Lit, implies, same};
use std::alloc::AllocError;
use symbols::Memory;
use trail::Trail;

// One more watch, in the list of its literal.
pub(crate) fn add_watch(work: &mut Watching, watch: Watch) -> Result<(), AllocError>
    requires counted { IsCounted work.old.places watch.lit }
    requires lists { length work.old.lists.items ≡ places_of work.old.places }
    ensures kept { IsKept work.old work.new }
    ensures pairs { work.new.pairs.items ≡ work.old.pairs.items }
    ensures ok { OnOk result (work.new.lists.items ≡ with_watch work.old.places work.old.lists.items watch) }
    ensures err { OnErr result (work.new.lists.items ≡ work.old.lists.items) }
{
    let to = work.places.place(watch.lit);
    let list = &mut work.lists[to];
    list.push(watch)
}

// Moves a watch from its list to that of another literal of its nogood.
fn shift(
    slots: &[Slot],
    work: &mut Watching,
    place: usize,
    index: usize,
    pair: Pair,
    watch: Watch,
    trail: &Trail,
) -> Result<(), Memory>
    requires working { IsWorking slots.now work.old trail.now }
    requires place { place < length work.old.lists.items }
    requires slot { watch.slot < length work.old.pairs.items }
    requires shifts { Shifts slots.now work.old trail.now place index pair watch }
    ensures working { IsWorking slots.now work.new trail.now }
    ensures kept { IsKept work.old work.new }
    ensures left { index ≤ length (list_at work.new.lists.items place) }
    ensures done { OnOk result ((lit : Lit) → is_true_on trail.now lit ≡ true → IsDone slots.now work.old.lists.items trail.now place lit (index + 1) → IsDone slots.now work.new.lists.items trail.now place lit index) }
{
    add_watch(work, watch)?;
    work.pairs[watch.slot] = pair;
    let list = &mut work.lists[place];
    list.take_out(index);
    Ok(())
}

// The index of the watched literal that stays, where the first is the one that became true, or the second.
#[inline]
fn other_of(pair: Pair, is_first: bool) -> usize
    ensures { result ≡ cond is_first pair.second pair.first }
{
    if is_first { pair.second } else { pair.first }
}

// The pair with this literal in place of the first, or of the second.
#[inline]
fn pair_with(is_first: bool, to: usize, kept: usize) -> Pair
    ensures { result ≡ cond is_first (record { first = to; second = kept }) (record { first = kept; second = to }) }
{
    if is_first {
        Pair {
            first: to,
            second: kept,
        }
    } else {
        Pair {
            first: kept,
            second: to,
        }
    }
}

// The watch at an index of a place's list.
#[inline]
fn watch_at(slots: &[Slot], work: &Watching, place: usize, index: usize, trail: &Trail) -> Watch
    requires working { IsWorking slots.now work.now trail.now }
    requires place { place < length work.now.lists.items }
    requires index { index < length (list_at work.now.lists.items place) }
    ensures value { result ≡ slice_index_or (list_at work.now.lists.items place) index result }
    ensures sound { IsSound slots.now work.now.pairs.items result }
    ensures named { Names trail.now.shape result.other }
{
    work.lists[place].at(index)
}

// Looks at the nogood of a watch that became true: another literal is watched in its place, or the other watched
// one is set to its opposite.
fn turn(
    slots: &[Slot],
    work: &mut Watching,
    place: usize,
    index: usize,
    watch: Watch,
    lit: Lit,
    trail: &mut Trail,
) -> Result<Option<u64>, Memory>
    requires working { IsWorking slots.now work.old trail.old }
    requires place { place < length work.old.lists.items }
    requires index { index < length (list_at work.old.lists.items place) }
    requires value { watch ≡ slice_index_or (list_at work.old.lists.items place) index watch }
    requires sound { IsSound slots.now work.old.pairs.items watch }
    requires watch { is_true_on trail.old watch.lit ≡ true }
    requires lit { is_true_on trail.old lit ≡ true }
    requires done { IsDone slots.now work.old.lists.items trail.old place lit (index + 1) }
    ensures grows { Grows (IsForced (held_of slots.now)) trail.old trail.new }
    ensures working { IsWorking slots.now work.new trail.new }
    ensures kept { IsKept work.old work.new }
    ensures conflict { IfOk result (λ found. IfSome found (λ id. IsConflict (held_of slots.now) trail.new id)) }
    ensures left { index ≤ length (list_at work.new.lists.items place) }
    ensures done { IfOk result (λ found. IfNone found (IsDone slots.now work.new.lists.items trail.new place lit index)) }
{
    let lits = lits_of(slots, watch.slot);
    let pair = work.pairs[watch.slot];
    let is_first = same(lits[pair.first], watch.lit);
    let kept = other_of(pair, is_first);
    let other = lits[kept];
    if is_false(trail, other) {
        return Ok(None);
    }
    match untrue(lits, kept, trail) {
        Some(to) => {
            let moved = Watch {
                slot: watch.slot,
                lit: lits[to],
                other,
            };
            shift(
                slots,
                work,
                place,
                index,
                pair_with(is_first, to, kept),
                moved,
                trail,
            )?;
            Ok(None)
        }
        None => {
            let found = close(slots, watch.slot, other, trail)?;
            Ok(found)
        }
    }
}

// Looks at one watch of a list, if the literal implies the watched one.
fn visit(
    slots: &[Slot],
    work: &mut Watching,
    place: usize,
    index: usize,
    lit: Lit,
    trail: &mut Trail,
) -> Result<Option<u64>, Memory>
    requires working { IsWorking slots.now work.old trail.old }
    requires place { place < length work.old.lists.items }
    requires index { index < length (list_at work.old.lists.items place) }
    requires lit { is_true_on trail.old lit ≡ true }
    requires done { IsDone slots.now work.old.lists.items trail.old place lit (index + 1) }
    ensures grows { Grows (IsForced (held_of slots.now)) trail.old trail.new }
    ensures working { IsWorking slots.now work.new trail.new }
    ensures kept { IsKept work.old work.new }
    ensures conflict { IfOk result (λ found. IfSome found (λ id. IsConflict (held_of slots.now) trail.new id)) }
    ensures left { index ≤ length (list_at work.new.lists.items place) }
    ensures done { IfOk result (λ found. IfNone found (IsDone slots.now work.new.lists.items trail.new place lit index)) }
{
    let watch = watch_at(slots, work, place, index, trail);
    if !implies(lit, watch.lit) {
        return Ok(None);
    }
    if is_false(trail, watch.other) {
        return Ok(None);
    }
    turn(slots, work, place, index, watch, lit, trail)
}

/// Looks at the watches that a true literal implies. It gives the id of a nogood whose literals are all
/// true, if it comes to one.
pub(crate) fn look(
    slots: &[Slot],
    work: &mut Watching,
    lit: Lit,
    trail: &mut Trail,
) -> Result<Option<u64>, Memory>
    requires working { IsWorking slots.now work.old trail.old }
    requires lit { is_true_on trail.old lit ≡ true }
    requires within { IsOf trail.old.shape lit }
    ensures grows { Grows (IsForced (held_of slots.now)) trail.old trail.new }
    ensures working { IsWorking slots.now work.new trail.new }
    ensures kept { IsKept work.old work.new }
    ensures conflict { IfOk result (λ found. IfSome found (λ id. IsConflict (held_of slots.now) trail.new id)) }
    ensures done { IfOk result (λ found. IfNone found (IsDone slots.now work.new.lists.items trail.new (place_of work.new.places lit) lit 0)) }
{
    let place = work.places.place(lit);
    let mut index = work.lists[place].count();
    'back: while index > 0 {
        index -= 1;
        if let Some(id) = visit(slots, work, place, index, lit, trail)? {
            return Ok(Some(id));
        }
    }
    Ok(None)
}
