// All pairs of a total, one behind the other.
ghost use Rattle.std.specs.Prelude.{◌≡◌, ◌++◌, ◌∷◌, map, negsuc, ◌*ℤ◌, All, IfOk, OnOk, IsTrue};
ghost use Rattle.std.specs.List.{flat_map};
ghost use Rattle.ground_model.specs.Sound as spec;
ghost use Rattle.linear_totals.specs.inner.Sums.{turned};

use program_meaning::CollectedPlace;
use std::alloc::Global;
use symbols::{Memory, SymbolId};

// The pairs of the first places, and those of the right side with the other sign.
pub(crate) fn gathered(
    alloc: Global,
    places: &[CollectedPlace],
    right: &[(SymbolId, i64)],
) -> Result<Vec<(SymbolId, i64)>, Memory>
    requires { All (λ pair. IsTrue (spec.is_small pair.1)) right.now }
    ensures { IfOk result (λ pairs. pairs.items ≡ flat_map (λ place. place.linear.pairs) places.now ++ map turned right.now) }
{
    let mut pairs = Vec::new(alloc);
    for place in places {
        append(&mut pairs, place.linear.pairs.items())?;
    }
    append_turned(&mut pairs, right)?;
    Ok(pairs)
}

fn append(pairs: &mut Vec<(SymbolId, i64)>, more: &[(SymbolId, i64)]) -> Result<(), Memory>
    ensures { OnOk result (pairs.new.items ≡ pairs.old.items ++ more.now) }
{
    for pair in more {
        pairs.push(*pair)?;
    }
    Ok(())
}

fn append_turned(pairs: &mut Vec<(SymbolId, i64)>, more: &[(SymbolId, i64)]) -> Result<(), Memory>
    requires { All (λ pair. IsTrue (spec.is_small pair.1)) more.now }
    ensures { OnOk result (pairs.new.items ≡ pairs.old.items ++ map turned more.now) }
{
    for pair in more {
        pairs.push((pair.0, -pair.1))?;
    }
    Ok(())
}
