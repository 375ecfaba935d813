// The tuples of an objective.
ghost use Rattle.std.specs.Prelude.{◌≡◌, ◌-◌, ◌-ℤ◌, ◌<◌, ◌≤◌, ◌&&◌, ◌^◌, length, IfOk};
ghost use Rattle.std.specs.List.{AllByRecursion};
ghost use Rattle.ground_model.specs.Sizes.{AreSizedPlaces};
ghost use Rattle.ground_model.specs.Sound.{is_sound_objective as objective_test, is_small as small_test, is_small_difference as difference_test, total_constant as constant_of, first_places, most};
ghost use Rattle.ground_parts.specs.inner.Totals.{AreWithin, AreZero, IsClear, AllHavePlaces, HasSmallConstant, places_differ_little as places_test};

use crate::numbers::is_small;
use crate::places::are_sound_places;
use crate::relation::total_constant;
use crate::scratch::Scratch;
use crate::totals::{add_places, places_differ_little};
use ground_model::Place;
use std::alloc::Global;
use symbols::Memory;

// Whether both sets of tuples are sound, and the numbers of their difference are small.
pub(crate) fn is_sound_objective(
    alloc: Global,
    symbols: usize,
    variables: usize,
    smaller: &[Place],
    larger: &[Place],
    scratch: &mut Scratch,
) -> Result<bool, Memory>
    requires { IsClear variables scratch.old }
    ensures { IfOk result (λ yes. yes ≡ objective_test symbols variables smaller.now larger.now) }
{
    if !are_sound_places(alloc, symbols, variables, smaller, &mut scratch.seen)? {
        return Ok(false);
    }
    if !are_sound_places(alloc, symbols, variables, larger, &mut scratch.seen)? {
        return Ok(false);
    }
    Ok(differ_little(smaller, larger, &mut scratch.left, &mut scratch.right))
}

// Whether the numbers of tuples minus those of others are small.
fn differ_little(smaller: &[Place], larger: &[Place], left: &mut [i128], right: &mut [i128]) -> bool
    requires size { 0 < length left.old }
    requires same_size { length right.old ≡ length left.old }
    requires smaller { AreSizedPlaces (length left.old - 1) smaller.now }
    requires larger { AreSizedPlaces (length left.old - 1) larger.now }
    requires left { AreZero left.old }
    requires right { AreZero right.old }
    ensures { result ≡ difference_test (length left.old - 1) (first_places smaller.now) (first_places larger.now) }
{
    add_places(smaller, left);
    add_places(larger, right);
    coefficients_differ_little(smaller, larger, left, right)
        && constants_differ_little(smaller, larger)
}

// Whether the constants of tuples minus those of others are small.
fn constants_differ_little(smaller: &[Place], larger: &[Place]) -> bool
    requires smaller { AllByRecursion HasSmallConstant smaller.now }
    requires few_smaller { length smaller.now ≤ most }
    requires larger { AllByRecursion HasSmallConstant larger.now }
    requires few_larger { length larger.now ≤ most }
    ensures { result ≡ small_test (constant_of (first_places smaller.now) -ℤ constant_of (first_places larger.now)) }
{
    is_small(total_constant(smaller) - total_constant(larger))
}

// Whether the sums of each variable of tuples and of others differ by little.
fn coefficients_differ_little(
    smaller: &[Place],
    larger: &[Place],
    left: &[i128],
    right: &[i128],
) -> bool
    requires same_size { length right.now ≡ length left.now }
    requires smaller { AllHavePlaces (length left.now) smaller.now }
    requires larger { AllHavePlaces (length left.now) larger.now }
    requires left_room { AreWithin (2 ^ 40) left.now }
    requires right_room { AreWithin (2 ^ 40) right.now }
    ensures { result ≡ (places_test left.now right.now smaller.now && places_test left.now right.now larger.now) }
{
    places_differ_little(smaller, left, right) && places_differ_little(larger, left, right)
}
