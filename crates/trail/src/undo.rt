// Taking slots back from the end of a trail.
ghost use Rattle.std.specs.Prelude.{◌≡◌, ◌<◌, ◌≤◌, ◌-◌, [], ◌∷◌, ◌++◌, length, slice_index_or, IfSome, IfNone, List};
ghost use Rattle.trail.specs.declared.entry.Slot.{Slot};
ghost use Rattle.trail.specs.inner.Cells.{HasPlace, reverted};

use crate::cells::Cells;
use crate::entry::Slot;

/// Takes the last slot, if it is above the level.
pub(crate) fn pop_above(slots: &mut Vec<Slot>, level: usize) -> Option<Slot>
    ensures some { IfSome result (λ slot. (slots.old.items ≡ slots.new.items ++ slot ∷ []) × (level < slot.entry.level)) }
    ensures none { IfNone result (slots.new.items ≡ slots.old.items) }
    ensures last { (d : Slot) → IfNone result (0 < length slots.old.items → (slice_index_or slots.old.items (length slots.old.items - 1) d).entry.level ≤ level) }
{
    let count = slots.len();
    if count == 0 || slots[count - 1].entry.level <= level {
        return None;
    }
    slots.pop()
}

/// Takes the literal of the slot back.
pub(crate) fn take_back(cells: &mut Cells, slot: Slot)
    requires { HasPlace cells.old slot.entry.lit }
    ensures { cells.new ≡ reverted cells.old slot.entry.lit slot.saved slot.mark }
{
    cells.revert(slot.entry.lit, slot.saved, slot.mark);
}

/// Drops the last slot.
pub(crate) fn drop_last(slots: &mut Vec<Slot>)
    ensures { (front : List Slot) → (last : Slot) → slots.old.items ≡ front ++ last ∷ [] → slots.new.items ≡ front }
{
    slots.pop();
}
