// The different tuples of a theory atom.
ghost use Rattle.std.specs.Prelude.{map};
ghost use Rattle.ground_model.specs.Members.{IsMember};
ghost use Rattle.program_meaning.specs.Ascending.{IsOrderedListOf};
ghost use Rattle.program_meaning.specs.Said.{place_in};
ghost use Rattle.program_meaning.specs.Theory.{place_cmp};
ghost use Rattle.collected_atoms.specs.Gathering.{AreKnownPlaces};

use program_meaning::{CollectedPlace, compare_tuples};
use symbols::{Listed, SymbolTable};

// The different ones of these tuples in order.
pub(crate) fn distinct_places(
    all: Vec<CollectedPlace>,
    symbols: &SymbolTable,
) -> Listed<CollectedPlace>
    ensures places { IsOrderedListOf place_cmp (IsMember (map (place_in symbols.now) all.items)) (map (place_in symbols.now) result) }
    ensures known { AreKnownPlaces symbols.now all.items → AreKnownPlaces symbols.now result }
{
    let mut places = all;
    places.sort_unstable_by(|a, b| compare_tuples(a, b, symbols));
    places.dedup_by(|a, b| compare_tuples(a, b, symbols).is_eq());
    Listed::from_vec(places)
}
