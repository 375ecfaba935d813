// The least and the greatest value of a linear term over the ends.
ghost use Rattle.std.specs.Prelude.{◌≡◌, ◌+◌, ◌+ℤ◌, ◌<◌, ◌≤◌, ◌^◌, true, length, unsigned_abs, IfOk};
ghost use Rattle.std.specs.List.{AllByRecursion, list_all};
ghost use Rattle.ground_model.specs.Sound.{least_product as least_product_of, greatest_product as greatest_product_of, least_sum, greatest_sum, is_small_over as over_test, are_sound_values as values_test, first_places};
ghost use Rattle.ground_parts.specs.inner.Totals.{HasSmallNumbers, AreUnset};

use crate::numbers::is_small;
use crate::places::are_sound_places;
use ground_model::{Linear, Place};
use std::alloc::Global;
use symbols::{Ends, Memory};

// The least of a coefficient times the numbers within the ends.
fn least_product(ends: Ends, coefficient: i64) -> i128
    requires { unsigned_abs coefficient < 2 ^ 62 }
    ensures value { result ≡ least_product_of ends coefficient }
    ensures size { unsigned_abs result ≤ 2 ^ 92 }
{
    if coefficient >= 0 {
        i128::from(coefficient) * i128::from(ends.min)
    } else {
        i128::from(coefficient) * i128::from(ends.max)
    }
}

// The greatest of a coefficient times the numbers within the ends.
fn greatest_product(ends: Ends, coefficient: i64) -> i128
    requires { unsigned_abs coefficient < 2 ^ 62 }
    ensures value { result ≡ greatest_product_of ends coefficient }
    ensures size { unsigned_abs result ≤ 2 ^ 92 }
{
    if coefficient >= 0 {
        i128::from(coefficient) * i128::from(ends.max)
    } else {
        i128::from(coefficient) * i128::from(ends.min)
    }
}

// The least value of a linear term.
fn least_value(ends: Ends, linear: &Linear) -> i128
    requires { HasSmallNumbers linear.now }
    ensures { result ≡ least_sum ends linear.now.pairs +ℤ linear.now.constant }
{
    let mut sum = i128::from(linear.constant);
    for (_, coefficient) in linear.pairs.items() {
        sum += least_product(ends, *coefficient);
    }
    sum
}

// The greatest value of a linear term.
fn greatest_value(ends: Ends, linear: &Linear) -> i128
    requires { HasSmallNumbers linear.now }
    ensures { result ≡ greatest_sum ends linear.now.pairs +ℤ linear.now.constant }
{
    let mut sum = i128::from(linear.constant);
    for (_, coefficient) in linear.pairs.items() {
        sum += greatest_product(ends, *coefficient);
    }
    sum
}

// Whether the least and the greatest value of a linear term are small.
fn is_small_over(ends: Ends, linear: &Linear) -> bool
    requires { HasSmallNumbers linear.now }
    ensures { result ≡ over_test ends linear.now }
{
    is_small(least_value(ends, linear)) && is_small(greatest_value(ends, linear))
}

// Whether so are those of the first place of each tuple.
fn are_small_over(ends: Ends, places: &[Place]) -> bool
    requires { AllByRecursion (λ place. HasSmallNumbers place.linear) places.now }
    ensures { result ≡ list_all (over_test ends) (first_places places.now) }
{
    for place in places {
        if !is_small_over(ends, &place.linear) {
            return false;
        }
    }
    true
}

// Whether tuples are sound and their first places have small values.
pub(crate) fn are_sound_values(
    alloc: Global,
    symbols: usize,
    variables: usize,
    ends: Ends,
    places: &[Place],
    seen: &mut [bool],
) -> Result<bool, Memory>
    requires size { length seen.old ≡ variables + 1 }
    requires unset { AreUnset seen.old }
    ensures sound { IfOk result (λ yes. yes ≡ values_test symbols variables ends places.now) }
    ensures unset { IfOk result (λ yes. yes ≡ true → AreUnset seen.new) }
{
    if !are_sound_places(alloc, symbols, variables, places, seen)? {
        return Ok(false);
    }
    Ok(are_small_over(ends, places))
}
