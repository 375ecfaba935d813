// Whether tuples are different from each other.
ghost use Rattle.std.specs.Prelude.{◌≡◌, IfOk};
ghost use Rattle.std.specs.List.{list_any};
ghost use Rattle.ground_model.specs.Sound.{same_place as same_test, are_different as different_test};

use ground_model::Place;
use std::alloc::Global;
use std::collections::HashSet;
use symbols::Memory;

// So many tuples are compared each with each; more are looked up by their hash.
const FEW: usize = 8;

// Whether no two of the tuples are the same.
pub(crate) fn are_different(alloc: Global, places: &[Place]) -> Result<bool, Memory>
    ensures { IfOk result (λ yes. yes ≡ different_test places.now) }
{
    if places.len() <= FEW {
        Ok(differ_each_from_each(places))
    } else {
        differ_by_hash(alloc, places)
    }
}

// Whether one tuple is the other, further places included.
fn same_place(one: &Place, other: &Place) -> bool
    ensures { result ≡ same_test one.now other.now }
{
    one == other
}

// Whether a tuple stands among others.
fn stands_among(place: &Place, others: &[Place]) -> bool
    ensures { result ≡ list_any (same_test place.now) others.now }
{
    others.iter().any(|other| same_place(place, other))
}

// The same, each tuple compared with each later one.
fn differ_each_from_each(places: &[Place]) -> bool
    ensures { result ≡ different_test places.now }
{
    for at in 0..places.len() {
        if stands_among(&places[at], &places[at + 1..]) {
            return false;
        }
    }
    true
}

// The same, each tuple looked up among the later ones.
fn differ_by_hash(alloc: Global, places: &[Place]) -> Result<bool, Memory>
    ensures { IfOk result (λ yes. yes ≡ different_test places.now) }
{
    let mut later = HashSet::new(alloc);
    let mut at = places.len();
    while at > 0 {
        at -= 1;
        if !later.insert(&places[at])? {
            return Ok(false);
        }
    }
    Ok(true)
}
