// The set of the tuples of a list.
ghost use Rattle.std.specs.Prelude.{map};
ghost use Rattle.ground_model.specs.Members.{IsMember};
ghost use Rattle.program_meaning.specs.Ascending.{IsOrderedListOf};
ghost use Rattle.program_meaning.specs.Said.{place_in};
ghost use Rattle.program_meaning.specs.Theory.{place_cmp};
ghost use Rattle.program_meaning.specs.declared.collected.CollectedPlace.{CollectedPlace};

use program_meaning::{CollectedPlace, compare_tuples};
use symbols::{Listed, SymbolTable};

/// The different ones of these tuples in order; O(n log n) comparisons.
///
/// Tuples of one collected form are the same, whatever terms they were collected from.
pub fn ordered_tuples(all: Listed<CollectedPlace>, symbols: &SymbolTable) -> Listed<CollectedPlace>
    ensures places { IsOrderedListOf place_cmp (IsMember (map (place_in symbols.now) all)) (map (place_in symbols.now) result) }
    ensures among { (place : CollectedPlace) → IsMember result place → IsMember all place }
{
    let mut places = all.into_vec();
    places.sort_unstable_by(|a, b| compare_tuples(a, b, symbols));
    places.dedup_by(|a, b| compare_tuples(a, b, symbols).is_eq());
    Listed::from_vec(places)
}
