// An item of a sum: what it counts, and its products with a range.
ghost use Rattle.std.specs.Prelude.{◌≡◌, ◌≤◌, ◌^◌, pos, ◌+ℤ◌, ◌≤ℤ◌};
ghost use Rattle.std.specs.Int.RustNames.{unsigned_abs};
ghost use Rattle.linear_normal.specs.Bounds.{least_times, greatest_times};
ghost use Rattle.trail_bounds.specs.Items.{counted_number, coefficient_of, at_least, at_most};
ghost use Rattle.trail_bounds.specs.Sides.{signed_by};

use crate::range::{Range, width_of};
use linear_normal::Item;
use literals::Lit;

/// The number of the variable or of the constraint that the item counts.
pub fn number_in(item: Item) -> u32
    ensures { result ≡ counted_number item }
{
    let (Item::Value(n, _) | Item::Truth(n, _)) = item;
    n
}

/// The item counts at least so much.
pub(crate) fn least_lit(item: Item, k: i32) -> Lit
    ensures { result ≡ at_least item k }
{
    match item {
        Item::Value(x, _) => Lit::AtLeast(x, k),
        Item::Truth(n, _) => Lit::Constraint(n, true),
    }
}

/// The item counts at most so much.
pub(crate) fn greatest_lit(item: Item, k: i32) -> Lit
    ensures { result ≡ at_most item k }
{
    match item {
        Item::Value(x, _) => Lit::AtMost(x, k),
        Item::Truth(n, _) => Lit::Constraint(n, false),
    }
}

/// The coefficient, or its opposite in the opposite sum.
pub fn signed(item: Item, side: bool) -> i128
    ensures value { result ≡ signed_by side (coefficient_of item) }
    ensures small { unsigned_abs result ≤ 2 ^ 63 }
{
    let (Item::Value(_, c) | Item::Truth(_, c)) = item;
    if side { i128::from(c) } else { -i128::from(c) }
}

/// The least of a coefficient times a number of the range.
pub fn least_of(c: i128, range: Range) -> i128
    requires { unsigned_abs c ≤ 2 ^ 63 }
    ensures value { result ≡ least_times c range.low range.high }
    ensures small { unsigned_abs result ≤ 2 ^ 93 }
{
    if c >= 0 {
        c * i128::from(range.low)
    } else {
        c * i128::from(range.high)
    }
}

/// The greatest of a coefficient times a number of the range.
pub fn greatest_of(c: i128, range: Range) -> i128
    requires { unsigned_abs c ≤ 2 ^ 63 }
    ensures value { result ≡ greatest_times c range.low range.high }
    ensures small { unsigned_abs result ≤ 2 ^ 93 }
{
    if c >= 0 {
        c * i128::from(range.high)
    } else {
        c * i128::from(range.low)
    }
}

/// How far apart a coefficient times the least and times the greatest number lie.
pub fn swing(c: i128, range: Range) -> u128
    requires { unsigned_abs c ≤ 2 ^ 63 }
    ensures { greatest_times c range.low range.high ≤ℤ (least_times c range.low range.high +ℤ pos result) }
{
    c.unsigned_abs() * u128::from(width_of(range))
}
