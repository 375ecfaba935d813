// At which entry a literal became true.
ghost use Rattle.std.specs.Prelude.{◌≡◌};
ghost use Rattle.trail.specs.Implied.{ends_imply, first_from};
ghost use Rattle.trail.specs.Assignment.{lits_of};
ghost use Rattle.trail.specs.inner.Kept.{AreMarked, entries_of, latest};

use crate::entry::Slot;
use literals::{Lit, implies};
use symbols::Ends;

// Whether the ends of the variables imply the literal.
#[inline]
pub(crate) fn is_by_ends(ends: Ends, lit: Lit) -> bool
    ensures { result ≡ ends_imply ends lit }
{
    match lit {
        Lit::Atom(..) | Lit::Body(..) | Lit::Constraint(..) => false,
        Lit::AtMost(_, k) => ends.max <= k,
        Lit::AtLeast(_, k) => k <= ends.min,
    }
}

/// The place of the first slot that implies the literal: from the last slot of its cell, each slot
/// leads to the one before it, whose literal is weaker.
pub(crate) fn first_of(slots: &[Slot], lit: Lit, last: Option<usize>) -> Option<usize>
    requires marked { AreMarked slots.now }
    requires last { last ≡ latest (lits_of (entries_of slots.now)) lit }
    ensures { result ≡ first_from 0 (lits_of (entries_of slots.now)) lit }
{
    let mut first = None;
    let mut mark = last;
    'back: loop {
        match mark {
            None => return first,
            Some(at) => {
                let slot = &slots[at];
                if !implies(slot.entry.lit, lit) {
                    return first;
                }
                first = mark;
                mark = slot.mark;
            }
        }
    }
}
