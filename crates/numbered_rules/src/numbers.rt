// Numbers by id.
ghost use Rattle.std.specs.Prelude.{◌≡◌, ◌<◌, ◌^◌, ℕ, length, slice_index, All, IfOk};
ghost use Rattle.numbered_rules.specs.inner.ByNumber.{number_among};

use std::alloc::Global;
use symbols::{Memory, SymbolId};

// For each of so many symbols its place among the ids, counted from 1; 0 for any other symbol.
pub(crate) fn places_of_ids(
    alloc: Global,
    symbols: usize,
    ids: &[SymbolId],
) -> Result<Vec<u32>, Memory>
    requires known { All (λ id. id < symbols) ids.now }
    requires few { length ids.now < 2 ^ 32 }
    ensures size { IfOk result (λ numbers. length numbers.items ≡ symbols) }
    ensures numbers { IfOk result (λ numbers. (id : ℕ) → slice_index numbers.items id ≡ number_among 1 ids.now id) }
{
    let mut numbers = vec![in alloc; 0u32; symbols]?;
    let mut at = ids.len();
    while at > 0 {
        at -= 1;
        numbers[ids[at].place()] = at as u32 + 1;
    }
    Ok(numbers)
}
