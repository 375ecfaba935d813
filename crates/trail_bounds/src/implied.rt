// The literal that an item needs within a slack.
ghost use Rattle.std.specs.Prelude.{◌≡◌, ◌+◌, ◌≤◌, ◌<◌, ◌^◌, pos, ◌+ℤ◌, ◌≤ℤ◌, IsTrue, IfSome, IfNone};
ghost use Rattle.std.specs.Int.RustNames.{unsigned_abs};
ghost use Rattle.linear_normal.specs.Bounds.{least_times, greatest_times};
ghost use Rattle.trail.specs.Assignment.{IsAssignment};
ghost use Rattle.trail_bounds.specs.OnTrail.{is_item_of, bounds_on};
ghost use Rattle.trail_bounds.specs.Sides.{Rests};
ghost use Rattle.trail_bounds.specs.Needing.{IsNeeded};
ghost use Rattle.trail_bounds.specs.inner.Steps.{Narrows};

use crate::item::{greatest_lit, least_lit, signed};
use crate::range::{Range, range_on, width_of};
use crate::steps::{room_in, spare_after};
use linear_normal::Item;
use literals::Lit;
use trail::Trail;

/// A literal that an item needs, and how much more than the slack its opposite exceeds, beyond the least
/// that it must: a reason may give so much away.
#[derive(Clone, Copy, Debug)]
pub struct Needed {
    pub lit: Lit,
    pub spare: u128,
}

// The literal by which the item, with this coefficient, stays within the slack: nothing where it does.
fn narrowed(item: Item, c: i128, range: Range, slack: u128) -> Option<Needed>
    requires c { unsigned_abs c ≤ 2 ^ 63 }
    ensures none { IfNone result (greatest_times c range.low range.high ≤ℤ (least_times c range.low range.high +ℤ pos slack)) }
    ensures some { IfSome result (λ needed. Narrows item c (slack + needed.spare) range.low range.high needed.lit) }
{
    let weight = c.unsigned_abs();
    match room_in(width_of(range), weight, slack) {
        None => None,
        Some(room) => {
            let spare = spare_after(room, weight, slack);
            if c > 0 {
                Some(Needed {
                    lit: greatest_lit(item, range.low + room as i32),
                    spare,
                })
            } else {
                Some(Needed {
                    lit: least_lit(item, range.high - room as i32),
                    spare,
                })
            }
        }
    }
}

/// The literal that the item, or the opposite item, needs within the slack above its least value, if it
/// needs one. O(1).
pub fn implied_bound(trail: &Trail, item: Item, side: bool, slack: u128) -> Option<Needed>
    requires assignment { IsAssignment trail.now }
    requires named { IsTrue (is_item_of trail.now.shape item) }
    ensures none { IfNone result (Rests side (bounds_on trail.now) slack item) }
    ensures some { IfSome result (λ needed. IsNeeded trail.now side item (slack + needed.spare) needed.lit) }
{
    narrowed(item, signed(item, side), range_on(trail, item), slack)
}
