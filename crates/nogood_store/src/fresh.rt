// Nogoods that are not watched yet.
ghost use Rattle.std.specs.Prelude.{◌≡◌, ◌<◌, ◌≤◌, ◌+◌, true, false, length, IfSome, IfNone, IfOk, OnOk};
ghost use Rattle.literals.specs.Lits.{complement_of};
ghost use Rattle.trail.specs.Assignment.{is_true_on};
ghost use Rattle.trail.specs.Forced.{OthersTrueOn};
ghost use Rattle.trail.specs.Growth.{Grows};
ghost use Rattle.nogood_store.specs.Propagation.{IsForced, IsConflict};
ghost use Rattle.nogood_store.specs.Kept.{held_of};
ghost use Rattle.nogood_store.specs.inner.Watching.{nogood_at, lit_at, IsTaken, IsWorking, IsFreshAt, AreDone, Attaches};

use crate::scan::{close, recent, untrue};
use crate::slot::{Slot, lits_of};
use crate::visit::add_watch;
use crate::watch::Watch;
use crate::watching::{Pair, Watching};
use symbols::Memory;
use trail::Trail;

// Takes the slot at an index out of the fresh ones: the last one takes its place.
fn take_out(fresh: &mut Vec<usize>, index: usize)
    requires { index < length fresh.old.items }
    ensures { IsTaken fresh.old.items fresh.new.items index }
{
    fresh.swap_remove(index);
}

// Watches two literals of a fresh slot's nogood, which then is fresh no more.
fn attach(
    slots: &[Slot],
    work: &mut Watching,
    index: usize,
    pair: Pair,
    trail: &Trail,
) -> Result<(), Memory>
    requires working { IsWorking slots.now work.old trail.now }
    requires attaches { Attaches slots.now work.old trail.now index pair }
    ensures working { IsWorking slots.now work.new trail.now }
    ensures left { index ≤ length work.new.fresh.items }
    ensures done { OnOk result (AreDone slots.now work.old.fresh.items trail.now (index + 1) → AreDone slots.now work.new.fresh.items trail.now index) }
{
    let slot = work.fresh[index];
    let lits = lits_of(slots, slot);
    let one = lits[pair.first];
    let two = lits[pair.second];
    work.pairs[slot] = pair;
    add_watch(
        work,
        Watch {
            slot,
            lit: one,
            other: two,
        },
    )?;
    add_watch(
        work,
        Watch {
            slot,
            lit: two,
            other: one,
        },
    )?;
    take_out(&mut work.fresh, index);
    Ok(())
}

// At level 0 a slot whose nogood has a false literal is fresh no more: that literal stays false.
fn settle(slots: &[Slot], work: &mut Watching, index: usize, trail: &Trail)
    requires working { IsWorking slots.now work.old trail.now }
    requires index { index < length work.old.fresh.items }
    requires done { AreDone slots.now work.old.fresh.items trail.now index }
    ensures working { IsWorking slots.now work.new trail.now }
    ensures left { index ≤ length work.new.fresh.items }
    ensures done { AreDone slots.now work.new.fresh.items trail.now index }
{
    if trail.level() == 0 {
        take_out(&mut work.fresh, index);
    }
}

// The slot at an index of the fresh ones.
fn fresh_at(slots: &[Slot], work: &Watching, index: usize, trail: &Trail) -> usize
    requires working { IsWorking slots.now work.now trail.now }
    requires index { index < length work.now.fresh.items }
    ensures { IsFreshAt slots.now work.now index result }
{
    work.fresh[index]
}

// Watches a fresh slot's nogood that has a false literal, by it and by one that was not true below the open
// level, if there is one.
fn take_false(
    slots: &[Slot],
    work: &mut Watching,
    index: usize,
    slot: usize,
    first: usize,
    trail: &Trail,
) -> Result<(), Memory>
    requires working { IsWorking slots.now work.old trail.now }
    requires fresh { IsFreshAt slots.now work.old index slot }
    requires first { first < length (nogood_at slots.now slot) }
    requires shut { is_true_on trail.now (complement_of (lit_at (nogood_at slots.now slot) first)) ≡ true }
    requires done { AreDone slots.now work.old.fresh.items trail.now (index + 1) }
    ensures working { IsWorking slots.now work.new trail.now }
    ensures left { index ≤ length work.new.fresh.items }
    ensures done { OnOk result (AreDone slots.now work.new.fresh.items trail.now index) }
{
    let lits = lits_of(slots, slot);
    match recent(lits, first, trail) {
        Some(second) => {
            attach(slots, work, index, Pair { first, second }, trail)?;
            Ok(())
        }
        None => {
            settle(slots, work, index, trail);
            Ok(())
        }
    }
}

// Sets the opposite of the one literal of a fresh slot's nogood that is not true.
fn take_unit(
    slots: &[Slot],
    work: &mut Watching,
    index: usize,
    slot: usize,
    first: usize,
    trail: &mut Trail,
) -> Result<Option<u64>, Memory>
    requires working { IsWorking slots.now work.old trail.old }
    requires fresh { IsFreshAt slots.now work.old index slot }
    requires first { first < length (nogood_at slots.now slot) }
    requires others { OthersTrueOn trail.old (nogood_at slots.now slot) (lit_at (nogood_at slots.now slot) first) }
    requires done { AreDone slots.now work.old.fresh.items trail.old (index + 1) }
    ensures grows { Grows (IsForced (held_of slots.now)) trail.old trail.new }
    ensures working { IsWorking slots.now work.new trail.new }
    ensures left { index ≤ length work.new.fresh.items }
    ensures conflict { IfOk result (λ found. IfSome found (λ id. IsConflict (held_of slots.now) trail.new id)) }
    ensures done { IfOk result (λ found. IfNone found (AreDone slots.now work.new.fresh.items trail.new index)) }
{
    let lits = lits_of(slots, slot);
    match close(slots, slot, lits[first], trail)? {
        Some(id) => Ok(Some(id)),
        None => {
            take_false(slots, work, index, slot, first, trail)?;
            Ok(None)
        }
    }
}

// Watches two literals of a fresh slot's nogood that are not true, or takes it as one whose others are true.
fn take_open(
    slots: &[Slot],
    work: &mut Watching,
    index: usize,
    slot: usize,
    first: usize,
    trail: &mut Trail,
) -> Result<Option<u64>, Memory>
    requires working { IsWorking slots.now work.old trail.old }
    requires fresh { IsFreshAt slots.now work.old index slot }
    requires first { first < length (nogood_at slots.now slot) }
    requires untrue { is_true_on trail.old (lit_at (nogood_at slots.now slot) first) ≡ false }
    requires done { AreDone slots.now work.old.fresh.items trail.old (index + 1) }
    ensures grows { Grows (IsForced (held_of slots.now)) trail.old trail.new }
    ensures working { IsWorking slots.now work.new trail.new }
    ensures left { index ≤ length work.new.fresh.items }
    ensures conflict { IfOk result (λ found. IfSome found (λ id. IsConflict (held_of slots.now) trail.new id)) }
    ensures done { IfOk result (λ found. IfNone found (AreDone slots.now work.new.fresh.items trail.new index)) }
{
    let lits = lits_of(slots, slot);
    match untrue(lits, first, trail) {
        Some(second) => {
            attach(slots, work, index, Pair { first, second }, trail)?;
            Ok(None)
        }
        None => take_unit(slots, work, index, slot, first, trail),
    }
}

// Looks at all literals of a fresh slot's nogood, and watches two of them where two are not true, or one
// is not and another was not true below the open level.
fn take_in(
    slots: &[Slot],
    work: &mut Watching,
    index: usize,
    trail: &mut Trail,
) -> Result<Option<u64>, Memory>
    requires working { IsWorking slots.now work.old trail.old }
    requires index { index < length work.old.fresh.items }
    requires done { AreDone slots.now work.old.fresh.items trail.old (index + 1) }
    ensures grows { Grows (IsForced (held_of slots.now)) trail.old trail.new }
    ensures working { IsWorking slots.now work.new trail.new }
    ensures left { index ≤ length work.new.fresh.items }
    ensures conflict { IfOk result (λ found. IfSome found (λ id. IsConflict (held_of slots.now) trail.new id)) }
    ensures done { IfOk result (λ found. IfNone found (AreDone slots.now work.new.fresh.items trail.new index)) }
{
    let slot = fresh_at(slots, work, index, trail);
    let lits = lits_of(slots, slot);
    match untrue(lits, lits.len(), trail) {
        Some(first) => take_open(slots, work, index, slot, first, trail),
        None => Ok(Some(slots[slot].id)),
    }
}

/// Looks at the nogoods of the fresh slots. It gives the id of one whose literals are all true, if it
/// comes to one.
pub(crate) fn take_all(
    slots: &[Slot],
    work: &mut Watching,
    trail: &mut Trail,
) -> Result<Option<u64>, Memory>
    requires working { IsWorking slots.now work.old trail.old }
    ensures grows { Grows (IsForced (held_of slots.now)) trail.old trail.new }
    ensures working { IsWorking slots.now work.new trail.new }
    ensures conflict { IfOk result (λ found. IfSome found (λ id. IsConflict (held_of slots.now) trail.new id)) }
    ensures done { IfOk result (λ found. IfNone found (AreDone slots.now work.new.fresh.items trail.new 0)) }
{
    let mut index = work.fresh.len();
    'each: while index > 0 {
        index -= 1;
        if let Some(id) = take_in(slots, work, index, trail)? {
            return Ok(Some(id));
        }
    }
    Ok(None)
}
