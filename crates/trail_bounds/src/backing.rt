// The literals on which the least value of an item stands.
ghost use Rattle.std.specs.Prelude.{◌≡◌, ◌<◌, ◌≤◌, ◌^◌, pos, ◌+ℤ◌, ◌-ℤ◌, ◌≤ℤ◌, ◌<ℤ◌, IsTrue, IfOk};
ghost use Rattle.std.specs.Int.RustNames.{unsigned_abs};
ghost use Rattle.trail.specs.Assignment.{IsAssignment};
ghost use Rattle.trail_bounds.specs.OnTrail.{is_item_of};
ghost use Rattle.trail_bounds.specs.Items.{at_least, at_most};
ghost use Rattle.trail_bounds.specs.Backing.{BacksOne};
ghost use Rattle.trail_bounds.specs.inner.Steps.{IsBackedBy};

use crate::item::{greatest_lit, least_lit, signed};
use crate::range::{Range, range_of_ends, range_on};
use crate::steps::{left_after, room_in};
use linear_normal::Item;
use literals::Lit;
use symbols::Memory;
use trail::Trail;

// On what the least value of an item stands, and what is left of the slack.
enum Backing {
    // The ends say enough.
    Ends(u128),
    // The literal says it.
    Bound(Lit, u128),
}

// How many steps the bound that counts lies from its end.
fn distance_of(c: i128, range: Range, ends: Range) -> u32
    requires low { ends.low ≤ℤ range.low }
    requires high { range.high ≤ℤ ends.high }
    ensures low { pos 0 ≤ℤ c → range.low ≡ ends.low +ℤ pos result }
    ensures high { c <ℤ pos 0 → ends.high ≡ range.high +ℤ pos result }
    ensures small { result ≤ 2 ^ 31 }
{
    if c >= 0 {
        (i64::from(range.low) - i64::from(ends.low)) as u32
    } else {
        (i64::from(ends.high) - i64::from(range.high)) as u32
    }
}

// The bound that counts, weaker by so many steps.
fn weaker(item: Item, c: i128, range: Range, steps: u32) -> Lit
    requires steps { steps < 2 ^ 31 }
    requires low { (pos 0 ≤ℤ c) → unsigned_abs (range.low -ℤ pos steps) ≤ 2 ^ 30 }
    requires high { (c <ℤ pos 0) → unsigned_abs (range.high +ℤ pos steps) ≤ 2 ^ 30 }
    ensures low { pos 0 ≤ℤ c → result ≡ at_least item (range.low -ℤ pos steps) }
    ensures high { c <ℤ pos 0 → result ≡ at_most item (range.high +ℤ pos steps) }
{
    if c >= 0 {
        least_lit(item, range.low - steps as i32)
    } else {
        greatest_lit(item, range.high + steps as i32)
    }
}

// The literal on which the least of the coefficient times the item's number stands: as weak as the slack
// allows, and none where that reaches the end.
fn weakest(item: Item, c: i128, range: Range, ends: Range, slack: u128) -> Backing
    requires c { unsigned_abs c ≤ 2 ^ 63 }
    requires low { ends.low ≤ℤ range.low }
    requires high { range.high ≤ℤ ends.high }
    ensures { IsBackedBy item c range.low range.high ends.low ends.high slack result }
{
    let distance = distance_of(c, range, ends);
    let weight = c.unsigned_abs();
    match room_in(distance, weight, slack) {
        None => Backing::Ends(left_after(distance, weight, slack)),
        Some(room) => Backing::Bound(
            weaker(item, c, range, room),
            left_after(room, weight, slack),
        ),
    }
}

/// Adds the literal on which the item's least value, or that of the opposite item, stands: none where the
/// ends say it or the slack does without it, and else a bound as weak as the slack allows. It gives what is
/// left of the slack. O(1).
pub fn back_item(
    trail: &Trail,
    item: Item,
    side: bool,
    slack: u128,
    lits: &mut Vec<Lit>,
) -> Result<u128, Memory>
    requires assignment { IsAssignment trail.now }
    requires named { IsTrue (is_item_of trail.now.shape item) }
    ensures { IfOk result (λ left. BacksOne trail.now side item slack left lits.old.items lits.new.items) }
{
    let range = range_on(trail, item);
    let ends = range_of_ends(trail.shape().ends, item);
    match weakest(item, signed(item, side), range, ends, slack) {
        Backing::Ends(left) => Ok(left),
        Backing::Bound(lit, left) => {
            lits.push(lit)?;
            Ok(left)
        }
    }
}
