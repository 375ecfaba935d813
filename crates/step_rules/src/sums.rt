// The least and the greatest sums under the bounds that literals name.
ghost use Rattle.std.specs.Prelude.{◌≡◌, ◌≤◌, ◌<◌, ◌+◌, ◌^◌, ◌*ℤ◌, length, unsigned_abs};
ghost use Rattle.literals.specs.Nogoods.{Rises};
ghost use Rattle.linear_normal.specs.Bounds as spec;
ghost use Rattle.linear_normal.specs.Bounds.{bounds_named};

use crate::bounds::{greatest, high, least, low};
use ground_model::Linear;
use linear_normal::Item;
use literals::Lit;
use symbols::Ends;

// A coefficient times a bound.
#[tactic(auto, using(crate::proofs::SumLemmas::product_size))]
fn product(coefficient: i64, bound: i32) -> i128
    ensures value { result ≡ coefficient *ℤ bound }
    ensures size { unsigned_abs result ≤ 2 ^ 94 }
{
    i128::from(coefficient) * i128::from(bound)
}

// The least of a coefficient times a number from low to high.
#[tactic(auto, using(crate::proofs::SumLemmas::least_by_sign))]
fn least_times(coefficient: i64, low: i32, high: i32) -> i128
    ensures value { result ≡ spec.least_times coefficient low high }
    ensures size { unsigned_abs result ≤ 2 ^ 94 }
{
    if coefficient < 0 {
        product(coefficient, high)
    } else {
        product(coefficient, low)
    }
}

// The greatest of a coefficient times a number from low to high.
#[tactic(auto, using(crate::proofs::SumLemmas::greatest_by_sign))]
fn greatest_times(coefficient: i64, low: i32, high: i32) -> i128
    ensures value { result ≡ spec.greatest_times coefficient low high }
    ensures size { unsigned_abs result ≤ 2 ^ 94 }
{
    if coefficient < 0 {
        product(coefficient, low)
    } else {
        product(coefficient, high)
    }
}

// The least of an item.
fn least_item(ends: Ends, lits: &[Lit], item: Item) -> i128
    requires sorted { Rises lits.now }
    ensures value { result ≡ spec.least_item (bounds_named ends lits.now) item }
    ensures size { unsigned_abs result ≤ 2 ^ 94 }
{
    match item {
        Item::Value(x, c) => least_times(c, low(ends, lits, x), high(ends, lits, x)),
        Item::Truth(n, c) => least_times(c, least(ends, lits, n), greatest(ends, lits, n)),
    }
}

// The greatest of an item.
fn greatest_item(ends: Ends, lits: &[Lit], item: Item) -> i128
    requires sorted { Rises lits.now }
    ensures value { result ≡ spec.greatest_item (bounds_named ends lits.now) item }
    ensures size { unsigned_abs result ≤ 2 ^ 94 }
{
    match item {
        Item::Value(x, c) => greatest_times(c, low(ends, lits, x), high(ends, lits, x)),
        Item::Truth(n, c) => greatest_times(c, least(ends, lits, n), greatest(ends, lits, n)),
    }
}

// The least sum of items.
pub(crate) fn least_sum(ends: Ends, lits: &[Lit], items: &[Item]) -> i128
    requires sorted { Rises lits.now }
    requires few { length items.now < 2 ^ 32 }
    ensures { result ≡ spec.least_sum (bounds_named ends lits.now) items.now }
{
    let mut sum = 0;
    for item in items {
        sum += least_item(ends, lits, *item);
    }
    sum
}

// The greatest sum of items.
pub(crate) fn greatest_sum(ends: Ends, lits: &[Lit], items: &[Item]) -> i128
    requires sorted { Rises lits.now }
    requires few { length items.now < 2 ^ 32 }
    ensures { result ≡ spec.greatest_sum (bounds_named ends lits.now) items.now }
{
    let mut sum = 0;
    for item in items {
        sum += greatest_item(ends, lits, *item);
    }
    sum
}

// The least of a variable with a coefficient.
fn least_pair(ends: Ends, lits: &[Lit], pair: (u32, i64)) -> i128
    requires sorted { Rises lits.now }
    ensures value { result ≡ spec.least_times pair.1 ((bounds_named ends lits.now).low pair.0) ((bounds_named ends lits.now).high pair.0) }
    ensures size { unsigned_abs result ≤ 2 ^ 94 }
{
    let (x, c) = pair;
    least_times(c, low(ends, lits, x), high(ends, lits, x))
}

// The greatest of a variable with a coefficient.
fn greatest_pair(ends: Ends, lits: &[Lit], pair: (u32, i64)) -> i128
    requires sorted { Rises lits.now }
    ensures value { result ≡ spec.greatest_times pair.1 ((bounds_named ends lits.now).low pair.0) ((bounds_named ends lits.now).high pair.0) }
    ensures size { unsigned_abs result ≤ 2 ^ 94 }
{
    let (x, c) = pair;
    greatest_times(c, low(ends, lits, x), high(ends, lits, x))
}

// The least sum of pairs.
fn least_pairs(ends: Ends, lits: &[Lit], pairs: &[(u32, i64)]) -> i128
    requires sorted { Rises lits.now }
    requires few { length pairs.now < 2 ^ 32 }
    ensures value { result ≡ spec.least_pairs (bounds_named ends lits.now) pairs.now }
    ensures size { unsigned_abs result ≤ 2 ^ 126 }
{
    let mut sum = 0;
    for pair in pairs {
        sum += least_pair(ends, lits, *pair);
    }
    sum
}

// The greatest sum of pairs.
fn greatest_pairs(ends: Ends, lits: &[Lit], pairs: &[(u32, i64)]) -> i128
    requires sorted { Rises lits.now }
    requires few { length pairs.now < 2 ^ 32 }
    ensures value { result ≡ spec.greatest_pairs (bounds_named ends lits.now) pairs.now }
    ensures size { unsigned_abs result ≤ 2 ^ 126 }
{
    let mut sum = 0;
    for pair in pairs {
        sum += greatest_pair(ends, lits, *pair);
    }
    sum
}

// The least value of a linear term.
pub(crate) fn least_value(ends: Ends, lits: &[Lit], linear: &Linear) -> i128
    requires sorted { Rises lits.now }
    requires few { length linear.now.pairs < 2 ^ 32 }
    ensures value { result ≡ spec.least_value (bounds_named ends lits.now) linear.now }
    ensures size { unsigned_abs result ≤ 2 ^ 126 + 2 ^ 63 }
{
    least_pairs(ends, lits, linear.pairs.items()) + i128::from(linear.constant)
}

// The greatest value of a linear term.
pub(crate) fn greatest_value(ends: Ends, lits: &[Lit], linear: &Linear) -> i128
    requires sorted { Rises lits.now }
    requires few { length linear.now.pairs < 2 ^ 32 }
    ensures value { result ≡ spec.greatest_value (bounds_named ends lits.now) linear.now }
    ensures size { unsigned_abs result ≤ 2 ^ 126 + 2 ^ 63 }
{
    greatest_pairs(ends, lits, linear.pairs.items()) + i128::from(linear.constant)
}
