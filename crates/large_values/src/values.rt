// The least and the greatest value of a linear term over the ends.
ghost use Rattle.std.specs.Prelude.{◌≡◌, ◌&&◌, ◌+◌, ◌+ℤ◌, ◌<◌, ◌≤◌, ◌^◌, not, length, map, unsigned_abs};
ghost use Rattle.std.specs.List.{AllByRecursion, list_any};
ghost use Rattle.ground_model.specs.Sound.{is_small as small_test, least_product as least_product_of, greatest_product as greatest_product_of, least_sum, greatest_sum};
ghost use Rattle.program_meaning.specs.Outside.{is_small_within};
ghost use Rattle.program_meaning.specs.Said.{linear_in, place_in};
ghost use Rattle.collected_terms.specs.Found.{IsKnownLinear};
ghost use Rattle.large_values.specs.inner.Numbers.{AreSmallPairs};

use program_meaning::{CollectedPlace, SymbolLinear};
use symbols::{Ends, SymbolTable};

/// Whether a value of the first place of some tuple, whose variables lie within the ends, does not lie strictly between
/// -2^62 and 2^62.
pub fn has_large_value(ends: Ends, places: &[CollectedPlace], symbols: &SymbolTable) -> bool
    requires known { AllByRecursion (λ place. IsKnownLinear symbols.now place.linear) places.now }
    ensures { result ≡ list_any (λ place. not (is_small_within ends place.linear)) (map (place_in symbols.now) places.now) }
{
    for at in 0..places.len() {
        if !is_small_over(ends, &places[at].linear, symbols) {
            return true;
        }
    }
    false
}

// Whether the least and the greatest value of a linear term are small.
fn is_small_over(ends: Ends, linear: &SymbolLinear, symbols: &SymbolTable) -> bool
    requires { IsKnownLinear symbols.now linear.now }
    ensures { result ≡ is_small_within ends (linear_in symbols.now linear.now) }
{
    let _count = symbols.len();
    is_small_sum(ends, linear)
}

// The same of a linear term with few pairs and small numbers.
fn is_small_sum(ends: Ends, linear: &SymbolLinear) -> bool
    requires pairs { AreSmallPairs linear.now.pairs }
    requires constant { unsigned_abs linear.now.constant < 2 ^ 62 }
    requires few { length linear.now.pairs < 2 ^ 32 }
    ensures { result ≡ (small_test (least_sum ends linear.now.pairs +ℤ linear.now.constant) && small_test (greatest_sum ends linear.now.pairs +ℤ linear.now.constant)) }
{
    is_small(least_value(ends, linear)) && is_small(greatest_value(ends, linear))
}

// Whether a number lies strictly between -2^62 and 2^62.
fn is_small(number: i128) -> bool
    ensures { result ≡ small_test number }
{
    -4_611_686_018_427_387_904 < number && number < 4_611_686_018_427_387_904
}

// The least value of a linear term.
fn least_value(ends: Ends, linear: &SymbolLinear) -> i128
    requires pairs { AreSmallPairs linear.now.pairs }
    requires constant { unsigned_abs linear.now.constant < 2 ^ 62 }
    requires few { length linear.now.pairs < 2 ^ 32 }
    ensures { result ≡ least_sum ends linear.now.pairs +ℤ linear.now.constant }
{
    let mut sum = i128::from(linear.constant);
    for (_, coefficient) in linear.pairs.items() {
        sum += least_product(ends, *coefficient);
    }
    sum
}

// The greatest value of a linear term.
fn greatest_value(ends: Ends, linear: &SymbolLinear) -> i128
    requires pairs { AreSmallPairs linear.now.pairs }
    requires constant { unsigned_abs linear.now.constant < 2 ^ 62 }
    requires few { length linear.now.pairs < 2 ^ 32 }
    ensures { result ≡ greatest_sum ends linear.now.pairs +ℤ linear.now.constant }
{
    let mut sum = i128::from(linear.constant);
    for (_, coefficient) in linear.pairs.items() {
        sum += greatest_product(ends, *coefficient);
    }
    sum
}

// The least of a coefficient times the numbers within the ends.
fn least_product(ends: Ends, coefficient: i64) -> i128
    requires { unsigned_abs coefficient < 2 ^ 62 }
    ensures value { result ≡ least_product_of ends coefficient }
    ensures size { unsigned_abs result ≤ 2 ^ 92 }
{
    if coefficient >= 0 {
        i128::from(coefficient) * i128::from(ends.min)
    } else {
        i128::from(coefficient) * i128::from(ends.max)
    }
}

// The greatest of a coefficient times the numbers within the ends.
fn greatest_product(ends: Ends, coefficient: i64) -> i128
    requires { unsigned_abs coefficient < 2 ^ 62 }
    ensures value { result ≡ greatest_product_of ends coefficient }
    ensures size { unsigned_abs result ≤ 2 ^ 92 }
{
    if coefficient >= 0 {
        i128::from(coefficient) * i128::from(ends.max)
    } else {
        i128::from(coefficient) * i128::from(ends.min)
    }
}
