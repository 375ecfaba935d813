// How the literals of one nogood stand.
ghost use Rattle.std.specs.Prelude.{◌≡◌, ℕ, ◌<◌, true, false, length, slice_index_or, IsTrue, IfSome, IfNone, IfOk};
ghost use Rattle.std.specs.List.{AllByRecursion, Contains};
ghost use Rattle.literals.specs.declared.lit.Lit.{Lit};
ghost use Rattle.literals.specs.Lits.{complement_of};
ghost use Rattle.trail.specs.Assignment.{Names, is_true_on};
ghost use Rattle.trail.specs.Growth.{Grows};
ghost use Rattle.trail.specs.Forced.{OthersTrueOn};
ghost use Rattle.nogood_store.specs.Propagation.{AllNamed, IsForced, IsConflict};
ghost use Rattle.nogood_store.specs.Kept.{held_of, SlotsAscend};
ghost use Rattle.nogood_store.specs.inner.Watching.{nogood_at, IsRecent};

use crate::slot::Slot;
use literals::{Lit, complement};
use symbols::Memory;
use trail::{Trail, Why};

#[inline]
pub(crate) fn is_true(trail: &Trail, lit: Lit) -> bool
    requires { Names trail.now.shape lit }
    ensures { result ≡ is_true_on trail.now lit }
{
    match trail.truth(lit) {
        Some(truth) => truth,
        None => false,
    }
}

#[inline]
pub(crate) fn is_false(trail: &Trail, lit: Lit) -> bool
    requires { Names trail.now.shape lit }
    ensures { IsTrue result → is_true_on trail.now (complement_of lit) ≡ true }
{
    match trail.truth(lit) {
        Some(truth) => !truth,
        None => false,
    }
}

// Whether the literal at the index is left out, or true.
#[inline]
fn passes(lits: &[Lit], index: usize, out: usize, trail: &Trail) -> bool
    requires named { AllByRecursion (Names trail.now.shape) lits.now }
    requires within { index < length lits.now }
    ensures yes_ { IsTrue result → (d : Lit) → (index ≡ out → ⊥) → is_true_on trail.now (slice_index_or lits.now index d) ≡ true }
    ensures not { result ≡ false → (index ≡ out → ⊥) × ((d : Lit) → is_true_on trail.now (slice_index_or lits.now index d) ≡ false) }
{
    if index == out {
        return true;
    }
    is_true(trail, lits[index])
}

/// The index of a literal that is not true, but not the one that is left out.
pub(crate) fn untrue(lits: &[Lit], out: usize, trail: &Trail) -> Option<usize>
    requires { AllByRecursion (Names trail.now.shape) lits.now }
    ensures some { IfSome result (λ j. (j < length lits.now) × (j ≡ out → ⊥) × ((d : Lit) → is_true_on trail.now (slice_index_or lits.now j d) ≡ false)) }
    ensures none { IfNone result ((k : ℕ) → k < length lits.now → (d : Lit) → (k ≡ out → ⊥) → is_true_on trail.now (slice_index_or lits.now k d) ≡ true) }
{
    for index in 0..lits.len() {
        if !passes(lits, index, out, trail) {
            return Some(index);
        }
    }
    None
}

// Whether the literal was not true below the open level.
fn is_recent(trail: &Trail, lit: Lit) -> bool
    requires { Names trail.now.shape lit }
    ensures { IsTrue result → IsRecent trail.now lit }
{
    if trail.level() == 0 {
        return true;
    }
    match trail.since(lit) {
        Some(at) => trail.entry(at).level == trail.level(),
        None => false,
    }
}

/// The index of a literal that was not true below the open level, but not the one that is left out.
pub(crate) fn recent(lits: &[Lit], out: usize, trail: &Trail) -> Option<usize>
    requires { AllByRecursion (Names trail.now.shape) lits.now }
    ensures { IfSome result (λ j. (j < length lits.now) × (j ≡ out → ⊥) × ((d : Lit) → IsRecent trail.now (slice_index_or lits.now j d))) }
{
    for index in 0..lits.len() {
        if index != out && is_recent(trail, lits[index]) {
            return Some(index);
        }
    }
    None
}

/// Where all literals of the slot's nogood but this one are true, sets its opposite if it is open. It
/// gives the nogood's id if this one is true as well.
pub(crate) fn close(
    slots: &[Slot],
    slot: usize,
    lit: Lit,
    trail: &mut Trail,
) -> Result<Option<u64>, Memory>
    requires within { slot < length slots.now }
    requires ascend { SlotsAscend slots.now }
    requires named { AllNamed trail.old.shape (held_of slots.now) }
    requires among { Contains (nogood_at slots.now slot) lit }
    requires others { OthersTrueOn trail.old (nogood_at slots.now slot) lit }
    ensures grows { Grows (IsForced (held_of slots.now)) trail.old trail.new }
    ensures conflict { IfOk result (λ found. IfSome found (λ id. IsConflict (held_of slots.now) trail.new id)) }
    ensures quiet { IfOk result (λ found. IfNone found (is_true_on trail.new (complement_of lit) ≡ true)) }
{
    let id = slots[slot].id;
    match trail.truth(lit) {
        Some(true) => Ok(Some(id)),
        Some(false) => Ok(None),
        None => {
            trail.set(complement(lit), Why::Held(id))?;
            Ok(None)
        }
    }
}
