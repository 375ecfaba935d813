// The variables of linear terms counted, and their coefficients summed, in arrays by variable.
ghost use Rattle.std.specs.Prelude.{◌≡◌, ◌+◌, ◌+ℤ◌, ◌-◌, ◌<◌, ◌≤◌, ◌^◌, ◌&&◌, ◌||◌, ◌==◌, not, ℕ, true, pos, cond, length, slice_set};
ghost use Rattle.ground_model.specs.Sizes.{IsSizedLinear, AreSizedPlaces};
ghost use Rattle.ground_model.specs.Sound.{coefficient as coefficient_of, total_coefficient, first_places, most, occurs};
ghost use Rattle.ground_parts.specs.inner.Totals.{names, set_flags, flag_of, sum_at, HavePlaces, AllHavePlaces, AreWithin, AreZero, differ_little as differ_test, pairs_differ_little as pairs_test, places_differ_little as places_test};

use crate::numbers::is_small;
use ground_model::{Linear, Place};

// Sets the flag of a variable: 1 where it was not set, else 0.
#[tactic(auto, using(crate::proofs::FlagSteps::set_known, crate::proofs::FlagSteps::set_fresh))]
fn mark(seen: &mut [bool], variable: u32) -> usize
    requires { variable < length seen.old }
    ensures flags { seen.new ≡ slice_set seen.old variable true }
    ensures count { set_flags seen.new ≡ set_flags seen.old + result }
{
    let known = seen[variable as usize];
    seen[variable as usize] = true;
    if known { 0 } else { 1 }
}

// Sets the flags of a linear term's variables, and counts those that were not set.
#[tactic(auto, using(crate::proofs::FlagSteps::set_most))]
pub(crate) fn mark_linear(linear: &Linear, seen: &mut [bool]) -> usize
    requires { HavePlaces (length seen.old) linear.now.pairs }
    ensures flags { (x : ℕ) → flag_of seen.new x ≡ (names linear.now.pairs x || flag_of seen.old x) }
    ensures count { set_flags seen.new ≡ set_flags seen.old + result }
{
    let mut count = 0;
    for (variable, _) in linear.pairs.items() {
        count += mark(seen, *variable);
    }
    count
}

// Sets the flags of the variables of tuples, and counts those that were not set.
#[tactic(auto, using(crate::proofs::FlagSteps::set_most))]
pub(crate) fn mark_places(places: &[Place], seen: &mut [bool]) -> usize
    requires { AllHavePlaces (length seen.old) places.now }
    ensures flags { (x : ℕ) → flag_of seen.new x ≡ (occurs (first_places places.now) x || flag_of seen.old x) }
    ensures count { set_flags seen.new ≡ set_flags seen.old + result }
{
    let mut count = 0;
    for place in places {
        count += mark_linear(&place.linear, seen);
    }
    count
}

// Takes the flags of a linear term's variables away.
pub(crate) fn unmark_linear(linear: &Linear, seen: &mut [bool])
    requires { HavePlaces (length seen.old) linear.now.pairs }
    ensures { (x : ℕ) → flag_of seen.new x ≡ (not (names linear.now.pairs x) && flag_of seen.old x) }
{
    for (variable, _) in linear.pairs.items() {
        seen[*variable as usize] = false;
    }
}

// Takes the flags of the variables of tuples away.
#[tactic(auto, using(crate::proofs::FlagSteps::unmark_step))]
pub(crate) fn unmark_places(places: &[Place], seen: &mut [bool])
    requires { AllHavePlaces (length seen.old) places.now }
    ensures { (x : ℕ) → flag_of seen.new x ≡ (not (occurs (first_places places.now) x) && flag_of seen.old x) }
{
    for place in places {
        unmark_linear(&place.linear, seen);
    }
}

// Adds the coefficients of a linear term to the sums of its variables.
pub(crate) fn add_linear(linear: &Linear, sums: &mut [i128])
    requires sized { IsSizedLinear (length sums.old - 1) linear.now }
    requires room { AreWithin (2 ^ 40) sums.old }
    ensures sums { (x : ℕ) → sum_at sums.new x ≡ sum_at sums.old x +ℤ coefficient_of x linear.now.pairs }
    ensures within { (n : ℕ) → AreWithin n sums.old → AreWithin (n + most) sums.new }
{
    for (variable, coefficient) in linear.pairs.items() {
        add_to(sums, *variable, *coefficient);
    }
}

// Adds a coefficient to the sum of a variable.
fn add_to(sums: &mut [i128], variable: u32, coefficient: i64)
    requires place { variable < length sums.old }
    requires room { AreWithin (2 ^ 41) sums.old }
    ensures { sums.new ≡ slice_set sums.old variable (sum_at sums.old variable +ℤ coefficient) }
{
    let sum = sums[variable as usize];
    sums[variable as usize] = sum + i128::from(coefficient);
}

// Sums the coefficients of tuples by variable, where all sums are 0.
pub(crate) fn add_places(places: &[Place], sums: &mut [i128])
    requires sized { AreSizedPlaces (length sums.old - 1) places.now }
    requires zero { AreZero sums.old }
    ensures sums { (x : ℕ) → sum_at sums.new x ≡ total_coefficient x (first_places places.now) }
    ensures within { AreWithin (2 ^ 40) sums.new }
{
    for place in places {
        add_linear(&place.linear, sums);
    }
}

// Sets the sums of a linear term's variables to 0.
pub(crate) fn zero_linear(linear: &Linear, sums: &mut [i128])
    requires { HavePlaces (length sums.old) linear.now.pairs }
    ensures { (x : ℕ) → sum_at sums.new x ≡ cond (names linear.now.pairs x) (pos 0) (sum_at sums.old x) }
{
    for (variable, _) in linear.pairs.items() {
        sums[*variable as usize] = 0;
    }
}

// Sets the sums of the variables of tuples to 0.
pub(crate) fn zero_places(places: &[Place], sums: &mut [i128])
    requires { AllHavePlaces (length sums.old) places.now }
    ensures { (x : ℕ) → sum_at sums.new x ≡ cond (occurs (first_places places.now) x) (pos 0) (sum_at sums.old x) }
{
    for place in places {
        zero_linear(&place.linear, sums);
    }
}

// Whether the two sums of a variable differ by little.
fn differ_little(left: &[i128], right: &[i128], variable: u32) -> bool
    requires left { variable < length left.now }
    requires right { variable < length right.now }
    requires left_room { AreWithin (2 ^ 40) left.now }
    requires right_room { AreWithin (2 ^ 40) right.now }
    ensures { result ≡ differ_test left.now right.now variable }
{
    let one = left[variable as usize];
    let other = right[variable as usize];
    is_small(one - other)
}

// Whether the two sums of each variable of a linear term differ by little.
pub(crate) fn linear_differs_little(linear: &Linear, left: &[i128], right: &[i128]) -> bool
    requires left { HavePlaces (length left.now) linear.now.pairs }
    requires right { HavePlaces (length right.now) linear.now.pairs }
    requires left_room { AreWithin (2 ^ 40) left.now }
    requires right_room { AreWithin (2 ^ 40) right.now }
    ensures { result ≡ pairs_test left.now right.now linear.now.pairs }
{
    for (variable, _) in linear.pairs.items() {
        if !differ_little(left, right, *variable) {
            return false;
        }
    }
    true
}

// Whether the two sums of each variable of tuples differ by little.
pub(crate) fn places_differ_little(places: &[Place], left: &[i128], right: &[i128]) -> bool
    requires left { AllHavePlaces (length left.now) places.now }
    requires right { AllHavePlaces (length right.now) places.now }
    requires left_room { AreWithin (2 ^ 40) left.now }
    requires right_room { AreWithin (2 ^ 40) right.now }
    ensures { result ≡ places_test left.now right.now places.now }
{
    for place in places {
        if !linear_differs_little(&place.linear, left, right) {
            return false;
        }
    }
    true
}
