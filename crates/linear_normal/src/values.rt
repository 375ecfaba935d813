// What an answer gives to atoms and variables, and what tuples are worth under it.
ghost use Rattle.std.specs.Prelude.{◌≡◌, ◌≤◌, ◌^◌, ◌+ℤ◌, ◌*ℤ◌, int_lt, true, [], length, map, unsigned_abs};
ghost use Rattle.std.specs.List.{AllByRecursion, list_all};
ghost use Rattle.ground_model.specs.Answers.{ascend_from, value_at, has_atom as atom_test};
ghost use Rattle.ground_model.specs.Intervals.{lies_in};
ghost use Rattle.ground_model.specs.Sound.{most};
ghost use Rattle.ground_model.specs.Truth.{value_of, all_pairs, differ, are_apart, share as share_test};
ghost use Rattle.ground_model.specs.Spans.{span_of};
ghost use Rattle.ground_model.specs.View.{linear_of, place_of};
ghost use Rattle.linear_normal.specs.Holds.{HasFewPairs, StartsWithin};

use ground_model::{Linear, Place};

// Whether an atom is among these, which ascend.
pub(crate) fn has_atom(atoms: &[u32], atom: u32) -> bool
    requires { ascend_from 0 atoms.now ≡ true }
    ensures { result ≡ atom_test atoms.now atom }
{
    atoms.binary_search(&atom).is_ok()
}

// The value of a variable, counted from 1, and 0 where it has none.
pub(crate) fn variable_value(values: &[i32], variable: u32) -> i32
    ensures { result ≡ value_at values.now variable }
{
    let place = (variable as usize).saturating_sub(1);
    if place < values.len() {
        values[place]
    } else {
        0
    }
}

// A coefficient times a value.
pub(crate) fn term_value(coefficient: i64, value: i32) -> i128
    ensures value { result ≡ coefficient *ℤ value }
    ensures size { unsigned_abs result ≤ 2 ^ 94 }
{
    i128::from(coefficient) * i128::from(value)
}

// The value of a linear term.
fn linear_value(linear: &Linear, values: &[i32]) -> i128
    requires { length linear.now.pairs ≤ most }
    ensures value { result ≡ value_of (value_at values.now) (linear_of linear.now) }
    ensures size { unsigned_abs result ≤ 2 ^ 111 }
{
    let mut sum = i128::from(linear.constant);
    for (variable, coefficient) in linear.pairs.items() {
        sum += term_value(*coefficient, variable_value(values, *variable));
    }
    sum
}

// Whether a number lies in one of the intervals.
pub(crate) fn lies_within(intervals: &[(i32, i32)], value: i32) -> bool
    ensures { result ≡ lies_in intervals.now value }
{
    intervals
        .iter()
        .any(|(low, high)| *low <= value && value <= *high)
}

// Whether the first places of tuples differ, each compared with all later ones.
pub(crate) fn all_differ(places: &[Place], values: &[i32]) -> bool
    requires { AllByRecursion HasFewPairs places.now }
    ensures { result ≡ all_pairs (differ (value_at values.now)) (map (place_of []) places.now) }
{
    for at in 0..places.len() {
        if !differs_from(&places[at], &places[at + 1..], values) {
            return false;
        }
    }
    true
}

// Whether the first place of a tuple differs from those of others.
fn differs_from(place: &Place, others: &[Place], values: &[i32]) -> bool
    requires place { HasFewPairs place.now }
    requires others { AllByRecursion HasFewPairs others.now }
    ensures { result ≡ list_all (differ (value_at values.now) (place_of [] place.now)) (map (place_of []) others.now) }
{
    let value = linear_value(&place.linear, values);
    for other in others {
        if value == linear_value(&other.linear, values) {
            return false;
        }
    }
    true
}

// Whether the spans of tuples share no integer, each compared with all later ones.
pub(crate) fn none_overlap(places: &[Place], values: &[i32]) -> bool
    requires { AllByRecursion HasFewPairs places.now }
    ensures { result ≡ all_pairs (are_apart (value_at values.now)) (map (place_of []) places.now) }
{
    for at in 0..places.len() {
        if !is_apart_from(&places[at], &places[at + 1..], values) {
            return false;
        }
    }
    true
}

// Whether the span of a tuple shares no integer with those of others.
fn is_apart_from(place: &Place, others: &[Place], values: &[i32]) -> bool
    requires place { HasFewPairs place.now }
    requires others { AllByRecursion HasFewPairs others.now }
    ensures { result ≡ list_all (are_apart (value_at values.now) (place_of [] place.now)) (map (place_of []) others.now) }
{
    let one = span(place, values);
    for other in others {
        if share(one, span(other, values)) {
            return false;
        }
    }
    true
}

// Where a tuple starts, and how long it lasts.
fn span(place: &Place, values: &[i32]) -> (i128, i32)
    requires { HasFewPairs place.now }
    ensures span { result ≡ span_of (value_at values.now) place.now }
    ensures start { StartsWithin result }
{
    (linear_value(&place.linear, values), place.duration)
}

// Whether a span ends above a number.
fn ends_above(span: (i128, i32), number: i128) -> bool
    requires { StartsWithin span }
    ensures { result ≡ int_lt number (span.0 +ℤ span.1) }
{
    number < span.0 + i128::from(span.1)
}

// Whether two spans share an integer.
fn share(one: (i128, i32), other: (i128, i32)) -> bool
    requires one { StartsWithin one }
    requires other { StartsWithin other }
    ensures { result ≡ share_test one.0 one.1 other.0 other.1 }
{
    one.1 > 0 && other.1 > 0 && ends_above(other, one.0) && ends_above(one, other.0)
}
