// Atoms with signs, sorted.
ghost use Rattle.std.specs.Prelude.{◌≡◌, ◌↔◌, length, map};
ghost use Rattle.ground_model.specs.Members.{IsMember};
ghost use Rattle.ground_model.specs.Rule.{LitOf};
ghost use Rattle.program_meaning.specs.Ascending.{Ascends};
ghost use Rattle.program_meaning.specs.Ground.{lit_cmp};
ghost use Rattle.symbols.specs.Symbol.{Symbol};
ghost use Rattle.symbol_rules.specs.Reading.{literal_in, HasLiterals};

use crate::ordering::compare;
use symbols::{Listed, SymbolId, SymbolTable};

// The different ones in order.
pub(crate) fn sorted(
    found: Listed<(SymbolId, bool)>,
    symbols: &SymbolTable,
) -> Listed<(SymbolId, bool)>
    requires { HasLiterals (length symbols.now) found }
    ensures ascends { Ascends lit_cmp (map (literal_in symbols.now) result) }
    ensures members { (lit : LitOf Symbol Symbol) → IsMember (map (literal_in symbols.now) result) lit ↔ IsMember (map (literal_in symbols.now) found) lit }
    ensures known { HasLiterals (length symbols.now) result }
{
    symbols.symbols_are_distinct();
    let mut sorted = found.into_vec();
    sorted.sort_unstable_by(|a, b| compare(*a, *b, symbols));
    sorted.dedup();
    Listed::from_vec(sorted)
}
