// Walking back over the trail to the literals that are marked.
ghost use Rattle.std.specs.Prelude.{◌≡◌, ◌≤◌, ◌<◌, ℕ, length, MatchOption};
ghost use Rattle.trail.specs.Assignment.{IsAssignment};
ghost use Rattle.literals.specs.declared.lit.Lit.{Lit};
ghost use Rattle.conflict_analysis.specs.Marked.{Fits};
ghost use Rattle.conflict_analysis.specs.inner.Runs.{IsHit};

use crate::marks::{Mark, Marks};
use literals::Lit;
use trail::Trail;

/// A literal that is marked, and the entry by which it became true.
#[derive(Clone, Copy, Debug)]
pub(crate) struct Hit {
    pub(crate) lit: Lit,
    pub(crate) place: usize,
}

// The literal that is marked as one that became true by the entry at the place.
fn hit_at(marks: &Marks, trail: &Trail, place: usize) -> Option<Hit>
    requires fits { Fits trail.now.shape marks.now }
    requires assignment { IsAssignment trail.now }
    requires within { place < length trail.now.entries }
    ensures { MatchOption result ((l : Lit) → IsHit trail.now marks.now place l → ⊥) (λ h. (h.place ≡ place) × IsHit trail.now marks.now place h.lit) }
{
    match marks.mark(trail.entry(place).lit) {
        Mark::ByEntry(lit, since) => {
            if since == place {
                Some(Hit { lit, place })
            } else {
                None
            }
        }
        _ => None,
    }
}

/// The last of the literals that are marked and became true by an entry before the place.
pub(crate) fn last_before(marks: &Marks, trail: &Trail, at: usize) -> Option<Hit>
    requires fits { Fits trail.now.shape marks.now }
    requires assignment { IsAssignment trail.now }
    requires within { at ≤ length trail.now.entries }
    ensures { MatchOption result ((i : ℕ) (l : Lit) → i < at → IsHit trail.now marks.now i l → ⊥) (λ h. (h.place < at) × IsHit trail.now marks.now h.place h.lit × ((i : ℕ) (l : Lit) → h.place < i → i < at → IsHit trail.now marks.now i l → ⊥)) }
{
    let mut place = at;
    while place > 0 {
        place -= 1;
        match hit_at(marks, trail, place) {
            Some(hit) => return Some(hit),
            None => {}
        }
    }
    None
}
