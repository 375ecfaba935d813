// A sum and its totals.
ghost use Rattle.std.specs.Prelude.{◌≡◌, ◌+◌, ◌≤◌, ◌^◌, pos, ◌+ℤ◌, ◌≤ℤ◌, ◌<ℤ◌, true, false, length, IsTrue, IfSome, IfNone};
ghost use Rattle.std.specs.Int.RustNames.{unsigned_abs};
ghost use Rattle.std.specs.List.{All};
ghost use Rattle.trail.specs.Assignment.{IsAssignment};
ghost use Rattle.linear_normal.specs.Bounds.{least_item, greatest_item, least_sum, greatest_sum};
ghost use Rattle.numbering_laws.specs.Items.{are_items};
ghost use Rattle.sum_propagator.specs.Sums.{IsWithin};
ghost use Rattle.trail_bounds.specs.OnTrail.{is_item_of, bounds_on};
ghost use Rattle.sum_propagator.specs.Moves.{AreRising, AreCoefficients};
ghost use Rattle.sum_propagator.specs.Sides.{AreSmall, limit_of, total_of};

use linear_normal::Item;
use symbols::Listed;
use trail::Trail;
use trail_bounds::{greatest_of, least_of, number_in, range_on, signed, swing};

/// What a sum is of.
#[derive(Clone, Copy, Debug)]
pub(crate) enum Kind {
    /// The constraint of a number, true or false.
    Constraint,
    /// The objective, as long as it has no bound.
    Unbounded,
    /// The objective with its bound.
    Bounded,
}

/// The sum of the items is at most a number: the constraint of this number, or the objective.
#[derive(Debug, Drop)]
pub(crate) struct Sum {
    pub(crate) kind: Kind,
    pub(crate) number: u32,
    pub(crate) items: Listed<Item>,
    pub(crate) most: i128,
    pub(crate) rising: bool,
    ghost are_items: { IsTrue (are_items number items) },
    ghost few: { length items ≤ 2 ^ 33 },
    ghost coefficients: { AreCoefficients items },
    ghost limit: { unsigned_abs most ≤ 2 ^ 120 },
    ghost are_rising: { IsTrue rising → AreRising items },
}

/// The least and the greatest sum.
#[derive(Clone, Copy, Debug)]
pub(crate) struct Totals {
    pub(crate) least: i128,
    pub(crate) greatest: i128,
}

/// Items that count different things are at most 2^33, since each names a variable or a constraint by 32
/// bits.
pub(crate) fn few(number: u32, items: &[Item])
    requires { IsTrue (are_items number items.now) }
    ensures { length items.now ≤ 2 ^ 33 }
{
    for item in items {
        let _number = number_in(*item);
    }
}

/// Coefficients are small, since each has 64 bits.
pub(crate) fn coefficients(items: &[Item])
    ensures { AreCoefficients items.now }
{
    for item in items {
        let _coefficient = signed(*item, true);
    }
}

// The totals with one more item.
fn with_item(trail: &Trail, totals: Totals, item: Item) -> Totals
    requires assignment { IsAssignment trail.now }
    requires named { IsTrue (is_item_of trail.now.shape item) }
    requires small { AreSmall totals }
    ensures least { result.least ≡ totals.least +ℤ least_item (bounds_on trail.now) item }
    ensures greatest { result.greatest ≡ totals.greatest +ℤ greatest_item (bounds_on trail.now) item }
    ensures least_small { unsigned_abs result.least ≤ unsigned_abs totals.least + 2 ^ 93 }
    ensures greatest_small { unsigned_abs result.greatest ≤ unsigned_abs totals.greatest + 2 ^ 93 }
{
    let range = range_on(trail, item);
    let c = signed(item, true);
    Totals {
        least: totals.least + least_of(c, range),
        greatest: totals.greatest + greatest_of(c, range),
    }
}

/// The least and the greatest sum on the trail.
#[tactic(auto, using(crate::proofs::Backing::least_next, crate::proofs::Backing::least_end, crate::proofs::Backing::greatest_next, crate::proofs::Backing::greatest_end))]
pub(crate) fn totals_on(trail: &Trail, items: &[Item]) -> Totals
    requires assignment { IsAssignment trail.now }
    requires named { All (λ item. IsTrue (is_item_of trail.now.shape item)) items.now }
    requires few { length items.now ≤ 2 ^ 33 }
    ensures least { result.least ≡ least_sum (bounds_on trail.now) items.now }
    ensures greatest { result.greatest ≡ greatest_sum (bounds_on trail.now) items.now }
    ensures small { AreSmall result }
{
    let mut totals = Totals {
        least: 0,
        greatest: 0,
    };
    for item in items {
        totals = with_item(trail, totals, *item);
    }
    totals
}

// The greater of the two: this number, and how far apart the item's values lie.
fn wider(trail: &Trail, widest: u128, item: Item) -> u128
    requires assignment { IsAssignment trail.now }
    requires named { IsTrue (is_item_of trail.now.shape item) }
    ensures more { widest ≤ result }
    ensures within { IsWithin result (bounds_on trail.now) item }
{
    let width = swing(signed(item, true), range_on(trail, item));
    if widest < width { width } else { widest }
}

/// How far apart an item's values lie at most.
pub(crate) fn widest_on(trail: &Trail, items: &[Item]) -> u128
    requires assignment { IsAssignment trail.now }
    requires named { All (λ item. IsTrue (is_item_of trail.now.shape item)) items.now }
    ensures { All (IsWithin result (bounds_on trail.now)) items.now }
{
    let mut widest = 0;
    for item in items {
        widest = wider(trail, widest, *item);
    }
    widest
}

/// The least sum, or that of the opposite sum.
pub(crate) fn total(totals: Totals, side: bool) -> i128
    requires small { AreSmall totals }
    ensures value { result ≡ total_of side totals.least totals.greatest }
    ensures small { unsigned_abs result ≤ 2 ^ 126 }
{
    if side { totals.least } else { -totals.greatest }
}

/// What the sum is at most, or the opposite one where this one is more.
pub(crate) fn limit(most: i128, side: bool) -> i128
    requires { unsigned_abs most ≤ 2 ^ 120 }
    ensures value { result ≡ limit_of side most }
    ensures small { unsigned_abs result ≤ 2 ^ 121 }
{
    if side { most } else { -most - 1 }
}

/// On which side the totals go beyond the limit, if on one.
pub(crate) fn excluded(most: i128, totals: Totals) -> Option<bool>
    requires limit { unsigned_abs most ≤ 2 ^ 120 }
    requires small { AreSmall totals }
    ensures some { IfSome result (λ side. limit_of side most <ℤ total_of side totals.least totals.greatest) }
    ensures none { IfNone result ((total_of true totals.least totals.greatest ≤ℤ limit_of true most) × (total_of false totals.least totals.greatest ≤ℤ limit_of false most)) }
{
    if totals.least > most {
        Some(true)
    } else if totals.greatest <= most {
        Some(false)
    } else {
        None
    }
}
