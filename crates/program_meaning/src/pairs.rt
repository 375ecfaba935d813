// Pairs of variables and coefficients in the order of symbols.
ghost use Rattle.std.specs.Prelude.{◌≡◌, ◌↔◌, ◌<◌, ◌≤◌, ◌+ℤ◌, length, map, All, IsTrue, IfOk, OnOk, OnErr};
ghost use Rattle.symbols.specs.Table.{IsOnce, symbol_at};
ghost use Rattle.ground_model.specs.Sound as spec;
ghost use Rattle.program_meaning.specs.Collected.{pair_added};
ghost use Rattle.program_meaning.specs.Said.{pair_in, pair_at, IsPairAt, IsKnownPair, place_for};

use std::cmp::Ordering;
use symbols::{Memory, SymbolId, SymbolTable};

/// Adds a variable with a coefficient to pairs in the order of symbols, or leaves them as they were.
///
/// Where the variable is there the coefficients are added up, and it stays also where they cancel. The answer
/// says whether all coefficients are still small, strictly between -2^62 and 2^62, as the next call asks.
/// Linear in the number of pairs.
pub fn add_pair(
    pairs: &mut Vec<(SymbolId, i64)>,
    variable: SymbolId,
    coefficient: i64,
    symbols: &SymbolTable,
) -> Result<bool, Memory>
    requires once { IsOnce symbols.now }
    requires variable { variable < length symbols.now }
    requires coefficient { IsTrue (spec.is_small coefficient) }
    requires pairs { All (IsKnownPair (length symbols.now)) pairs.old.items }
    ensures ok { OnOk result (map (pair_in symbols.now) pairs.new.items ≡ pair_added (symbol_at symbols.now variable) coefficient (map (pair_in symbols.now) pairs.old.items)) }
    ensures small { IfOk result (λ small. IsTrue small ↔ All (IsKnownPair (length symbols.now)) pairs.new.items) }
    ensures err { OnErr result (pairs.new.items ≡ pairs.old.items) }
{
    let place = place_of(pairs, variable, symbols);
    if is_at(pairs, place, variable) {
        let sum = sum_at(pairs, place, coefficient);
        pairs[place] = (variable, sum);
        return Ok(is_small(sum));
    }
    pairs.insert(place, (variable, coefficient))?;
    Ok(true)
}

// Whether a number lies strictly between -2^62 and 2^62.
fn is_small(n: i64) -> bool
    ensures { result ≡ spec.is_small n }
{
    -(1 << 62) < n && n < 1 << 62
}

// Whether the variable has a pair at the place.
fn is_at(pairs: &[(SymbolId, i64)], place: usize, variable: SymbolId) -> bool
    ensures { IsTrue result ↔ IsPairAt pairs.now place variable }
{
    place < pairs.len() && pairs[place].0 == variable
}

// The coefficient at the place and another one.
fn sum_at(pairs: &[(SymbolId, i64)], place: usize, coefficient: i64) -> i64
    requires place { place < length pairs.now }
    requires coefficient { IsTrue (spec.is_small coefficient) }
    requires pairs { All (λ pair. IsTrue (spec.is_small pair.1)) pairs.now }
    ensures { result ≡ coefficient +ℤ (pair_at pairs.now place).1 }
{
    coefficient + pairs[place].1
}

// The place of the first pair whose variable does not stand before this one.
fn place_of(pairs: &[(SymbolId, i64)], variable: SymbolId, symbols: &SymbolTable) -> usize
    requires variable { variable < length symbols.now }
    requires pairs { All (IsKnownPair (length symbols.now)) pairs.now }
    ensures place { result ≡ place_for (symbol_at symbols.now variable) (map (pair_in symbols.now) pairs.now) }
    ensures within { result ≤ length pairs.now }
{
    for (place, pair) in pairs.iter().enumerate() {
        if symbols.compare(variable, pair.0) != Ordering::Greater {
            return place;
        }
    }
    pairs.len()
}
