// Nogoods under their ids.
ghost use Rattle.std.specs.Prelude.{◌≡◌, ◌<◌, ◌↔◌, length, IsTrue, option_copied};
ghost use Rattle.literals.specs.Nogoods.{IsNogood};
ghost use Rattle.nogood_store.specs.Holding.{nogood_under, IsHeld};
ghost use Rattle.nogood_store.specs.Kept.{held_of, SlotsAscend};
ghost use Rattle.nogood_store.specs.inner.Watching.{nogood_at};

use literals::{Lit, Nogood};

/// A nogood that is held, under its id.
#[derive(Debug, Drop)]
pub(crate) struct Slot {
    pub(crate) id: u64,
    pub(crate) nogood: Nogood,
}

/// The literals of the slot's nogood.
#[inline]
pub(crate) fn lits_of(slots: &[Slot], slot: usize) -> &[Lit]
    requires { slot < length slots.now }
    ensures value { result.now ≡ nogood_at slots.now slot }
    ensures nogood { IsNogood result.now }
{
    slots[slot].nogood.lits()
}

/// The nogood under the id.
pub(crate) fn nogood_of(slots: &[Slot], id: u64) -> Option<&Nogood>
    requires { SlotsAscend slots.now }
    ensures { option_copied result ≡ nogood_under (held_of slots.now) id }
{
    let mut low = 0;
    let mut high = slots.len();
    while low < high {
        let middle = low + (high - low) / 2;
        if slots[middle].id < id {
            low = middle + 1;
        } else {
            high = middle;
        }
    }
    if low < slots.len() && slots[low].id == id {
        Some(&slots[low].nogood)
    } else {
        None
    }
}

/// Whether one of the slots has a nogood with the same literals.
pub(crate) fn has_nogood(slots: &[Slot], nogood: &Nogood) -> bool
    ensures { IsTrue result ↔ IsHeld (held_of slots.now) nogood.now }
{
    for slot in slots {
        if slot.nogood == *nogood {
            return true;
        }
    }
    false
}
