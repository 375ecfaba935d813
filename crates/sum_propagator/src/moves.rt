// How entries move the totals.
ghost use Rattle.std.specs.Prelude.{◌≡◌, ◌<◌, ◌≤◌, ◌+◌, ◌^◌, pos, ◌+ℤ◌, ◌*ℤ◌, length, cond, IsTrue};
ghost use Rattle.std.specs.Int.RustNames.{unsigned_abs};
ghost use Rattle.trail.specs.Assignment.{IsAssignment};
ghost use Rattle.sum_propagator.specs.Sums.{fits_sum};
ghost use Rattle.trail_bounds.specs.Items.{coefficient_of};
ghost use Rattle.sum_propagator.specs.Sides.{AreSmall};
ghost use Rattle.sum_propagator.specs.Moves.{front, move_of, moves_least, step_by, AreRising, AreTotals, IsMoved};

use crate::places::place_of;
use crate::sum::{Sum, Totals};
use linear_normal::Item;
use literals::Lit;
use trail::Trail;
use trail_bounds::signed;

/// What a literal moves: the lower or the upper bound of what the item of this key counts.
#[derive(Clone, Copy, Debug)]
pub(crate) struct Move {
    pub(crate) key: u64,
    pub(crate) lower: bool,
    pub(crate) from: i32,
    pub(crate) to: i32,
}

// What the literal moves, where this is the bound that it replaced.
fn moved_by(lit: Lit, replaced: Option<i32>) -> Option<Move>
    ensures { result ≡ move_of lit replaced }
{
    match lit {
        Lit::Atom(..) | Lit::Body(..) => None,
        Lit::Constraint(n, sign) => Some(Move {
            key: 2 * u64::from(n) + 1,
            lower: sign,
            from: i32::from(!sign),
            to: i32::from(sign),
        }),
        Lit::AtMost(x, k) => Some(Move {
            key: 2 * u64::from(x),
            lower: false,
            from: replaced?,
            to: k,
        }),
        Lit::AtLeast(x, k) => Some(Move {
            key: 2 * u64::from(x),
            lower: true,
            from: replaced?,
            to: k,
        }),
    }
}

fn product(c: i128, k: i32) -> i128
    requires { unsigned_abs c ≤ 2 ^ 63 }
    ensures value { result ≡ c *ℤ k }
    ensures small { unsigned_abs result ≤ 2 ^ 94 }
{
    c * i128::from(k)
}

// By how much the coefficient times a bound grows.
fn step_of(c: i128, from: i32, to: i32) -> i128
    requires { unsigned_abs c ≤ 2 ^ 63 }
    ensures value { result ≡ step_by c from to }
    ensures small { unsigned_abs result ≤ 2 ^ 95 }
{
    let after = product(c, to);
    let before = product(c, from);
    after - before
}

// Whether a lower, or an upper, bound of what an item counts moves the least sum and not the greatest.
fn is_of_least(c: i128, lower: bool) -> bool
    ensures { result ≡ moves_least c lower }
{
    lower == (c >= 0)
}

// The totals after a step of the least or of the greatest sum.
fn stepped(totals: Totals, step: i128, least: bool) -> Totals
    requires small { AreSmall totals }
    requires step { unsigned_abs step ≤ 2 ^ 95 }
    ensures least { result.least ≡ totals.least +ℤ cond least step (pos 0) }
    ensures greatest { result.greatest ≡ totals.greatest +ℤ cond least (pos 0) step }
{
    if least {
        Totals {
            least: totals.least + step,
            greatest: totals.greatest,
        }
    } else {
        Totals {
            least: totals.least,
            greatest: totals.greatest + step,
        }
    }
}

// The totals after a move of this item.
fn with_item_moved(totals: Totals, item: Item, one: Move) -> Totals
    requires small { AreSmall totals }
    ensures least { result.least ≡ totals.least +ℤ cond (moves_least (coefficient_of item) one.lower) (step_by (coefficient_of item) one.from one.to) (pos 0) }
    ensures greatest { result.greatest ≡ totals.greatest +ℤ cond (moves_least (coefficient_of item) one.lower) (pos 0) (step_by (coefficient_of item) one.from one.to) }
{
    let c = signed(item, true);
    stepped(
        totals,
        step_of(c, one.from, one.to),
        is_of_least(c, one.lower),
    )
}

// The totals after a move, of an item or of what no item counts.
fn with_move(items: &[Item], totals: Totals, one: Move) -> Totals
    requires rising { AreRising items.now }
    requires small { AreSmall totals }
    ensures { IsMoved items.now one totals result }
{
    match place_of(items, one.key) {
        None => totals,
        Some(at) => with_item_moved(totals, items[at], one),
    }
}

// The totals after the entry at this place.
fn with_entry(trail: &Trail, sum: &Sum, totals: Totals, place: usize) -> Totals
    requires assignment { IsAssignment trail.now }
    requires rising { AreRising sum.now.items }
    requires place { place < length trail.now.entries }
    requires totals { AreTotals (front trail.now place) sum.now.items totals }
    ensures { AreTotals (front trail.now (place + 1)) sum.now.items result }
{
    match moved_by(trail.entry(place).lit, trail.replaced(place)) {
        None => totals,
        Some(one) => with_move(sum.items.items(), totals, one),
    }
}

/// The totals on the trail, from those after its first entries on.
pub(crate) fn totals_from(trail: &Trail, sum: &Sum, seen: usize, totals: Totals) -> Totals
    requires assignment { IsAssignment trail.now }
    requires rising { AreRising sum.now.items }
    requires seen { seen ≤ length trail.now.entries }
    requires totals { AreTotals (front trail.now seen) sum.now.items totals }
    ensures { AreTotals trail.now sum.now.items result }
{
    let mut totals = totals;
    for place in seen..trail.length() {
        totals = with_entry(trail, sum, totals, place);
    }
    totals
}
