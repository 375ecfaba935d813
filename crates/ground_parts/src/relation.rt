// Relations: tuples against a right side.
ghost use Rattle.std.specs.Prelude.{◌≡◌, ◌+◌, ◌-◌, ◌-ℤ◌, ◌<◌, ◌≤◌, ◌&&◌, ◌^◌, true, [], ◌∷◌, length, unsigned_abs, IfOk};
ghost use Rattle.std.specs.List.{AllByRecursion};
ghost use Rattle.ground_model.specs.Sizes.{IsSizedLinear, AreSizedPlaces};
ghost use Rattle.ground_model.specs.Sound.{is_small as small_test, is_sound_relation as relation_test, are_sound_places as places_sound, is_sound_linear as linear_sound, has_few_variables as few_test, is_small_difference as difference_test, total_constant as constant_of, first_places, most};
ghost use Rattle.ground_parts.specs.inner.Totals.{AreWithin, AreUnset, AreZero, IsClear, HavePlaces, AllHavePlaces, HasSmallConstant, pairs_differ_little, places_differ_little as places_test};

use crate::linear::is_sound_linear;
use crate::numbers::is_small;
use crate::places::{are_sound_places, have_few_with};
use crate::scratch::Scratch;
use crate::totals::{
    add_linear, add_places, linear_differs_little, places_differ_little, zero_linear, zero_places,
};
use ground_model::{Linear, Place, Relation};
use std::alloc::Global;
use symbols::Memory;

// Whether the tuples and the right side are sound, and so is their difference.
pub(crate) fn is_sound_relation(
    alloc: Global,
    symbols: usize,
    variables: usize,
    relation: &Relation,
    scratch: &mut Scratch,
) -> Result<bool, Memory>
    requires { IsClear variables scratch.old }
    ensures sound { IfOk result (λ yes. yes ≡ relation_test symbols variables relation.now) }
    ensures clear { IfOk result (λ yes. yes ≡ true → IsClear variables scratch.new) }
{
    let places = relation.elements.items();
    let right = &relation.right;
    if !are_sound_sides(alloc, symbols, variables, places, right, &mut scratch.seen)? {
        return Ok(false);
    }
    Ok(differ_little(places, right, &mut scratch.left, &mut scratch.right))
}

// Whether tuples and a right side are sound, with at most so many variables in both together.
fn are_sound_sides(
    alloc: Global,
    symbols: usize,
    variables: usize,
    places: &[Place],
    right: &Linear,
    seen: &mut [bool],
) -> Result<bool, Memory>
    requires size { length seen.old ≡ variables + 1 }
    requires unset { AreUnset seen.old }
    ensures sound { IfOk result (λ yes. yes ≡ (places_sound symbols variables places.now && linear_sound variables right.now && few_test variables (right.now ∷ first_places places.now))) }
    ensures unset { IfOk result (λ yes. yes ≡ true → AreUnset seen.new) }
{
    if !are_sound_places(alloc, symbols, variables, places, seen)? {
        return Ok(false);
    }
    if !is_sound_linear(variables, right) {
        return Ok(false);
    }
    Ok(have_few_with(right, places, seen))
}

// Whether the numbers of tuples minus a right side are small.
fn differ_little(places: &[Place], linear: &Linear, left: &mut [i128], right: &mut [i128]) -> bool
    requires size { 0 < length left.old }
    requires same_size { length right.old ≡ length left.old }
    requires places { AreSizedPlaces (length left.old - 1) places.now }
    requires linear { IsSizedLinear (length left.old - 1) linear.now }
    requires left { AreZero left.old }
    requires right { AreZero right.old }
    ensures small { result ≡ difference_test (length left.old - 1) (first_places places.now) (linear.now ∷ []) }
    ensures left { AreZero left.new }
    ensures right { AreZero right.new }
{
    add_places(places, left);
    add_linear(linear, right);
    let little = coefficients_differ_little(places, linear, left, right);
    zero_places(places, left);
    zero_linear(linear, right);
    little && constants_differ_little(places, linear)
}

// Whether the constants of tuples minus that of a linear term are small.
fn constants_differ_little(places: &[Place], linear: &Linear) -> bool
    requires places { AllByRecursion HasSmallConstant places.now }
    requires few { length places.now ≤ most }
    requires linear { unsigned_abs linear.now.constant < 2 ^ 62 }
    ensures { result ≡ small_test (constant_of (first_places places.now) -ℤ linear.now.constant) }
{
    is_small(total_constant(places) - i128::from(linear.constant))
}

// Whether the sums of each variable of tuples and of a linear term differ by little.
fn coefficients_differ_little(
    places: &[Place],
    linear: &Linear,
    left: &[i128],
    right: &[i128],
) -> bool
    requires same_size { length right.now ≡ length left.now }
    requires places { AllHavePlaces (length left.now) places.now }
    requires linear { HavePlaces (length left.now) linear.now.pairs }
    requires left_room { AreWithin (2 ^ 40) left.now }
    requires right_room { AreWithin (2 ^ 40) right.now }
    ensures { result ≡ (places_test left.now right.now places.now && pairs_differ_little left.now right.now linear.now.pairs) }
{
    places_differ_little(places, left, right) && linear_differs_little(linear, left, right)
}

// The sum of the constants of tuples.
pub(crate) fn total_constant(places: &[Place]) -> i128
    requires small { AllByRecursion HasSmallConstant places.now }
    requires few { length places.now ≤ most }
    ensures value { result ≡ constant_of (first_places places.now) }
    ensures size { unsigned_abs result ≤ 2 ^ 78 }
{
    let mut sum = 0;
    for place in places {
        sum += i128::from(place.linear.constant);
    }
    sum
}
