// The set of the tuples that element instances give.
ghost use Rattle.std.specs.Prelude.{◌≡◌, length, map};
ghost use Rattle.ground_model.specs.Members.{IsMember};
ghost use Rattle.program_meaning.specs.Ascending.{IsOrderedListOf};
ghost use Rattle.program_meaning.specs.Said.{place_in};
ghost use Rattle.program_meaning.specs.Theory.{place_cmp};

use crate::collected::{CollectedPlace, CollectedTuples};
use crate::tuple_order::compare_tuples;
use symbols::{Listed, SymbolTable};

/// The different ones of these tuples in order, where each instance of an element gave one of them;
/// O(n log n) comparisons.
///
/// Tuples of one collected form become one, and each instance is counted.
pub fn tuple_set(all: Vec<CollectedPlace>, symbols: &SymbolTable) -> CollectedTuples
    ensures places { IsOrderedListOf place_cmp (IsMember (map (place_in symbols.now) all.items)) (map (place_in symbols.now) result.places) }
    ensures instances { result.instances ≡ length all.items }
{
    let instances = all.len();
    let mut places = all;
    places.sort_unstable_by(|a, b| compare_tuples(a, b, symbols));
    places.dedup_by(|a, b| compare_tuples(a, b, symbols).is_eq());
    CollectedTuples {
        places: Listed::from_vec(places),
        instances,
    }
}
