// The tuples of a theory atom.
ghost use Rattle.std.specs.Prelude.{◌≡◌, ◌+◌, ◌-◌, ◌<◌, ℕ, false, true, ◌∷◌, length, IfOk};
ghost use Rattle.std.specs.List.{list_all};
ghost use Rattle.ground_model.specs.Sound.{is_sound_place as place_test, are_sound_places as places_test, has_few_variables as few_test, first_places};
ghost use Rattle.ground_parts.specs.inner.Totals.{HavePlaces, AllHavePlaces, AreUnset};

use crate::different::are_different;
use crate::linear::is_sound_linear;
use crate::numbers::are_known;
use crate::totals::{mark_linear, mark_places, unmark_linear, unmark_places};
use ground_model::{Linear, Place};
use std::alloc::Global;
use symbols::Memory;

// The most tuples and the most variables of one theory atom.
pub(crate) const MOST: usize = 65_536;

// Whether a tuple's terms are sound, its duration not negative and its further places symbols.
fn is_sound_place(symbols: usize, variables: usize, place: &Place) -> bool
    ensures { result ≡ place_test symbols variables place.now }
{
    is_sound_linear(variables, &place.linear)
        && place.duration >= 0
        && are_known(symbols, place.rest.items())
}

// Whether each tuple is sound.
fn are_each_sound(symbols: usize, variables: usize, places: &[Place]) -> bool
    ensures { result ≡ list_all (place_test symbols variables) places.now }
{
    places
        .iter()
        .all(|place| is_sound_place(symbols, variables, place))
}

// Whether there are at most so many tuples, all different and sound, with at most so many variables.
pub(crate) fn are_sound_places(
    alloc: Global,
    symbols: usize,
    variables: usize,
    places: &[Place],
    seen: &mut [bool],
) -> Result<bool, Memory>
    requires size { length seen.old ≡ variables + 1 }
    requires unset { AreUnset seen.old }
    ensures sound { IfOk result (λ yes. yes ≡ places_test symbols variables places.now) }
    ensures unset { IfOk result (λ yes. yes ≡ true → AreUnset seen.new) }
{
    if !are_each_sound(symbols, variables, places) {
        return Ok(false);
    }
    if !are_different(alloc, places)? {
        return Ok(false);
    }
    if places.len() > MOST {
        return Ok(false);
    }
    Ok(have_few_variables(places, seen))
}

// Whether tuples have at most so many variables.
fn have_few_variables(places: &[Place], seen: &mut [bool]) -> bool
    requires size { 0 < length seen.old }
    requires places { AllHavePlaces (length seen.old) places.now }
    requires unset { AreUnset seen.old }
    ensures few { result ≡ few_test (length seen.old - 1) (first_places places.now) }
    ensures unset { AreUnset seen.new }
{
    let count = mark_places(places, seen);
    unmark_places(places, seen);
    count <= MOST
}

// Whether a linear term and tuples together have at most so many variables.
#[tactic(auto, using(crate::proofs::FlagSteps::set_most))]
pub(crate) fn have_few_with(linear: &Linear, places: &[Place], seen: &mut [bool]) -> bool
    requires size { 0 < length seen.old }
    requires linear { HavePlaces (length seen.old) linear.now.pairs }
    requires places { AllHavePlaces (length seen.old) places.now }
    requires unset { AreUnset seen.old }
    ensures few { result ≡ few_test (length seen.old - 1) (linear.now ∷ first_places places.now) }
    ensures unset { AreUnset seen.new }
{
    let own = mark_linear(linear, seen);
    let more = mark_places(places, seen);
    unmark_linear(linear, seen);
    unmark_places(places, seen);
    own + more <= MOST
}
