// Unit propagation by watched literals.
ghost use Rattle.std.specs.Prelude.{◌≡◌, ◌+◌, ◌<◌, ◌≤◌, length, IfOk, IfSome, IfNone};
ghost use Rattle.trail.specs.Growth.{Grows};
ghost use Rattle.nogood_store.specs.Holding.{seen_of, IsFront};
ghost use Rattle.nogood_store.specs.Propagation.{AllNamed, IsForced, IsConflict, Answers};
ghost use Rattle.nogood_store.specs.Kept.{held_of};
ghost use Rattle.nogood_store.specs.inner.Watching.{IsStored, IsLeft, IsWorking, AreDone, looks_of};

use crate::fresh::take_all;
use crate::slot::Slot;
use crate::visit::look;
use crate::watching::{Look, Watching, cut, lower, prepare, rest};
use symbols::Memory;
use trail::Trail;

/// How unit propagation ended.
#[derive(Clone, Copy, Debug, PartialEq, Eq)]
pub enum Unit {
    /// No held nogood has all literals true, or all but one true and that one open.
    Quiet,
    /// All literals of the nogood held under this id are true.
    Conflict(u64),
}

// Looks at the first entry of the trail that was not looked at.
fn step(slots: &[Slot], work: &mut Watching, trail: &mut Trail) -> Result<Option<u64>, Memory>
    requires working { IsWorking slots.now work.old trail.old }
    requires done { AreDone slots.now work.old.fresh.items trail.old 0 }
    requires within { length work.old.looked.items < length trail.old.entries }
    ensures grows { Grows (IsForced (held_of slots.now)) trail.old trail.new }
    ensures working { IsWorking slots.now work.new trail.new }
    ensures conflict { IfOk result (λ found. IfSome found (λ id. IsConflict (held_of slots.now) trail.new id)) }
    ensures done { IfOk result (λ found. IfNone found (AreDone slots.now work.new.fresh.items trail.new 0)) }
    ensures more { IfOk result (λ found. IfNone found (length work.new.looked.items ≡ length work.old.looked.items + 1)) }
{
    let entry = trail.entry(work.looked.len());
    let seen = Look {
        lit: entry.lit,
        level: entry.level,
    };
    lower(work, seen.level);
    if let Some(id) = look(slots, work, seen.lit, trail)? {
        return Ok(Some(id));
    }
    work.looked.push(seen)?;
    Ok(None)
}

// Looks at the entries of the trail that were not looked at.
fn catch_up(slots: &[Slot], work: &mut Watching, trail: &mut Trail) -> Result<Option<u64>, Memory>
    requires working { IsWorking slots.now work.old trail.old }
    requires done { AreDone slots.now work.old.fresh.items trail.old 0 }
    ensures grows { Grows (IsForced (held_of slots.now)) trail.old trail.new }
    ensures working { IsWorking slots.now work.new trail.new }
    ensures conflict { IfOk result (λ found. IfSome found (λ id. IsConflict (held_of slots.now) trail.new id)) }
    ensures done { IfOk result (λ found. IfNone found (AreDone slots.now work.new.fresh.items trail.new 0)) }
    ensures all { IfOk result (λ found. IfNone found (length trail.new.entries ≤ length work.new.looked.items)) }
{
    'ahead: while work.looked.len() < trail.length() {
        if let Some(id) = step(slots, work, trail)? {
            return Ok(Some(id));
        }
    }
    Ok(None)
}

// Looks at the fresh slots and at the entries that were not looked at.
fn run(slots: &[Slot], work: &mut Watching, trail: &mut Trail) -> Result<Option<u64>, Memory>
    requires stored { IsStored slots.now work.old }
    requires named { AllNamed trail.old.shape (held_of slots.now) }
    requires front { IsFront (looks_of work.old.looked.items) (seen_of trail.old.entries) }
    ensures grows { Grows (IsForced (held_of slots.now)) trail.old trail.new }
    ensures left { IsLeft slots.now work.new }
    ensures front { IsFront (looks_of work.new.looked.items) (seen_of trail.new.entries) }
    ensures conflict { IfOk result (λ found. IfSome found (λ id. IsConflict (held_of slots.now) trail.new id)) }
    ensures quiet { IfOk result (λ found. IfNone found (Answers (held_of slots.now) trail.new Unit.Quiet)) }
    ensures stored { IfOk result (λ found. IfNone found (trail.new.level ≤ work.new.low → IsStored slots.now work.new)) }
{
    prepare(slots, work, trail)?;
    if let Some(id) = take_all(slots, work, trail)? {
        return Ok(Some(id));
    }
    let found = catch_up(slots, work, trail)?;
    Ok(found)
}

/// Sets what held nogoods force, until nothing is left to set or all literals of one are true.
///
/// A watch is looked at when an entry makes it true. An entry of a level below the open one is looked at
/// again in the next call.
pub(crate) fn propagate(
    slots: &[Slot],
    work: &mut Watching,
    trail: &mut Trail,
) -> Result<Unit, Memory>
    requires stored { IsStored slots.now work.old }
    requires named { AllNamed trail.old.shape (held_of slots.now) }
    requires front { IsFront (looks_of work.old.looked.items) (seen_of trail.old.entries) }
    ensures grows { Grows (IsForced (held_of slots.now)) trail.old trail.new }
    ensures answer { IfOk result (λ answer. Answers (held_of slots.now) trail.new answer) }
    ensures stored { IsStored slots.now work.new }
    ensures front { IsFront (looks_of work.new.looked.items) (seen_of trail.new.entries) }
{
    match run(slots, work, trail) {
        Ok(Some(id)) => {
            cut(work);
            Ok(Unit::Conflict(id))
        }
        Ok(None) => {
            rest(work, trail.level());
            Ok(Unit::Quiet)
        }
        Err(memory) => {
            cut(work);
            Err(memory)
        }
    }
}
