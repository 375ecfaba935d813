// From which to which number an item counts.
ghost use Rattle.std.specs.Prelude.{◌≡◌, ◌≤◌, ◌^◌, pos, ◌+ℤ◌, ◌≤ℤ◌, IsTrue};
ghost use Rattle.std.specs.Int.RustNames.{unsigned_abs};
ghost use Rattle.trail.specs.Assignment.{IsAssignment, lower_on, upper_on};
ghost use Rattle.trail_bounds.specs.OnTrail.{is_item_of, bounds_on};
ghost use Rattle.trail_bounds.specs.Items.{low_in, high_in, low_end, high_end};
ghost use Rattle.trail_bounds.specs.inner.Ranges.{least_count, greatest_count};

use linear_normal::Item;
use literals::Lit;
use symbols::Ends;
use trail::Trail;

/// From which to which number an item counts, both included.
#[derive(Clone, Copy, Debug)]
pub struct Range {
    pub low: i32,
    pub high: i32,
    pub ghost order: { low ≤ℤ high },
    pub ghost low_small: { unsigned_abs low ≤ 2 ^ 30 },
    pub ghost high_small: { unsigned_abs high ≤ 2 ^ 30 },
}

// The bounds of a variable.
fn bounds_of(trail: &Trail, x: u32) -> Range
    requires assignment { IsAssignment trail.now }
    requires named { x ≤ trail.now.shape.variables }
    ensures low { result.low ≡ lower_on trail.now x }
    ensures high { result.high ≡ upper_on trail.now x }
{
    Range {
        low: trail.lower(x),
        high: trail.upper(x),
    }
}

// A truth as 0 and 1.
fn count_of(known: Option<bool>) -> Range
    ensures low { result.low ≡ least_count known }
    ensures high { result.high ≡ greatest_count known }
{
    let low = known == Some(true);
    let high = known != Some(false);
    Range {
        low: i32::from(low),
        high: i32::from(high),
    }
}

/// What the item counts: the bounds of a variable, or the truth of a constraint as 0 and 1. O(1).
pub fn range_on(trail: &Trail, item: Item) -> Range
    requires assignment { IsAssignment trail.now }
    requires named { IsTrue (is_item_of trail.now.shape item) }
    ensures low { result.low ≡ low_in (bounds_on trail.now) item }
    ensures high { result.high ≡ high_in (bounds_on trail.now) item }
{
    match item {
        Item::Value(x, _) => bounds_of(trail, x),
        Item::Truth(n, _) => count_of(trail.truth(Lit::Constraint(n, true))),
    }
}

/// What the item counts where nothing is set.
pub(crate) fn range_of_ends(ends: Ends, item: Item) -> Range
    ensures low { result.low ≡ low_end ends item }
    ensures high { result.high ≡ high_end ends item }
{
    match item {
        Item::Value(..) => Range {
            low: ends.min,
            high: ends.max,
        },
        Item::Truth(..) => Range { low: 0, high: 1 },
    }
}

/// How many steps there are from the least number to the greatest.
pub(crate) fn width_of(range: Range) -> u32
    ensures value { range.high ≡ range.low +ℤ pos result }
    ensures small { result ≤ 2 ^ 31 }
{
    (i64::from(range.high) - i64::from(range.low)) as u32
}
