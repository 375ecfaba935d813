// What stands on a trail.
ghost use Rattle.std.specs.Prelude.{◌≡◌};
ghost use Rattle.trail.specs.inner.Kept.{bound_saved};

use literals::{Lit, Reason};

/// Why a literal was set.
#[derive(Debug, Drop)]
pub enum Why {
    /// The search chose it.
    Decision,
    /// The held nogood of this id forced it.
    Held(u64),
    /// This reason forced it.
    Shown(Reason),
}

/// A literal that was set.
#[derive(Debug, Drop)]
pub struct Entry {
    pub lit: Lit,
    /// The level that was open when it was set.
    pub level: usize,
    pub why: Why,
}

/// What `Trail::set` did.
#[derive(Clone, Copy, Debug, PartialEq, Eq)]
pub enum Placed {
    /// The literal was implied already.
    Already,
    /// Its opposite is implied.
    Clash,
    /// It is the last entry now.
    Done,
}

// An entry with what it replaced: the bound that stood before it, and the entry that gave that bound.
#[derive(Debug, Drop)]
pub(crate) struct Slot {
    pub(crate) entry: Entry,
    pub(crate) saved: i32,
    pub(crate) mark: Option<usize>,
}

/// The bound that the slot's entry replaced, where it is a bound.
#[inline]
pub(crate) fn replaced_by(slot: &Slot) -> Option<i32>
    ensures { result ≡ bound_saved slot.now.entry.lit slot.now.saved }
{
    match slot.entry.lit {
        Lit::Atom(..) | Lit::Body(..) | Lit::Constraint(..) => None,
        Lit::AtMost(..) | Lit::AtLeast(..) => Some(slot.saved),
    }
}
