// The total of first places minus a right side.
ghost use Rattle.std.specs.Prelude.{◌≡◌, ◌&&◌, map, IfOk};
ghost use Rattle.std.specs.List.{AllByRecursion};
ghost use Rattle.program_meaning.specs.Collected.{is_small_form};
ghost use Rattle.program_meaning.specs.Outside.{difference};
ghost use Rattle.program_meaning.specs.Said.{place_in, linear_in};
ghost use Rattle.collected_terms.specs.Found.{IsKnownLinear};

use crate::constants::is_small_constant;
use crate::gathering::gathered;
use crate::runs::has_small_sums;
use program_meaning::{CollectedPlace, SymbolLinear};
use std::alloc::Global;
use symbols::{Memory, SymbolTable};

/// Whether all numbers of the sum of the first places minus the right side lie strictly between -2^62 and 2^62.
///
/// O(n log n) for n pairs in all of them.
pub fn is_small_total(
    alloc: Global,
    places: &[CollectedPlace],
    right: &SymbolLinear,
    symbols: &SymbolTable,
) -> Result<bool, Memory>
    requires places { AllByRecursion (λ place. IsKnownLinear symbols.now place.linear) places.now }
    requires right { IsKnownLinear symbols.now right.now }
    ensures { IfOk result (λ small. small ≡ is_small_form (difference (map (place_in symbols.now) places.now) (linear_in symbols.now right.now))) }
{
    symbols.symbols_are_distinct();
    match gathered(alloc, places, right.pairs.items()) {
        Err(memory) => Err(memory),
        Ok(pairs) => Ok(both(
            has_small_sums(pairs),
            is_small_constant(places, right.constant),
        )),
    }
}

fn both(one: bool, other: bool) -> bool
    ensures { result ≡ one && other }
{
    one && other
}
