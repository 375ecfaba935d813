// The integer variables of a theory atom.
ghost use Rattle.std.specs.Prelude.{◌≡◌, ◌↔◌, ◌<◌, ◌++◌, List, length, map, All, IfOk, OnOk, IsTrue};
ghost use Rattle.std.specs.List.{flat_map};
ghost use Rattle.symbols.specs.Table.{symbol_at};
ghost use Rattle.ground_model.specs.Members.{IsMember};
ghost use Rattle.ground_model.specs.Sound.{most};
ghost use Rattle.program_meaning.specs.Ascending.{Exceeds};
ghost use Rattle.collected_atoms.specs.inner.Settled.{ids_of, guard_ids, all_ids};

use crate::atom::CollectedGuard;
use program_meaning::CollectedPlace;
use std::alloc::Global;
use symbols::{Listed, Memory, SymbolId, SymbolTable, sorted_ids};

// The most tuples and the most variables of a theory atom.
pub(crate) const MOST: usize = 65_536;

// Whether there are more variables in tuples and a guard than a theory atom may have.
pub(crate) fn has_many_variables(
    alloc: Global,
    places: &[CollectedPlace],
    guard: &Option<CollectedGuard>,
    symbols: &SymbolTable,
) -> Result<bool, Memory>
    requires { All (λ id. id < length symbols.now) (all_ids places.now guard.now) }
    ensures { IfOk result (λ many. IsTrue many ↔ Exceeds (IsMember (map (symbol_at symbols.now) (all_ids places.now guard.now))) most) }
{
    symbols.symbols_are_distinct();
    match gathered_ids(alloc, places, guard) {
        Err(memory) => Err(memory),
        Ok(ids) => are_many(alloc, &ids, symbols),
    }
}

// Whether there are more different ids.
fn are_many(alloc: Global, ids: &[SymbolId], symbols: &SymbolTable) -> Result<bool, Memory>
    requires { All (λ id. id < length symbols.now) ids.now }
    ensures { IfOk result (λ many. IsTrue many ↔ Exceeds (IsMember (map (symbol_at symbols.now) ids.now)) most) }
{
    symbols.symbols_are_distinct();
    match sorted_ids(alloc, symbols, ids) {
        Err(memory) => Err(memory),
        Ok(sorted) => Ok(sorted.len() > MOST),
    }
}

fn gathered_ids(
    alloc: Global,
    places: &[CollectedPlace],
    guard: &Option<CollectedGuard>,
) -> Result<Vec<SymbolId>, Memory>
    ensures { IfOk result (λ ids. ids.items ≡ all_ids places.now guard.now) }
{
    let mut ids = Vec::new(alloc);
    for place in places {
        append_ids(&mut ids, place.linear.pairs.items())?;
    }
    append_guard(&mut ids, guard)?;
    Ok(ids)
}

fn append_guard(ids: &mut Vec<SymbolId>, guard: &Option<CollectedGuard>) -> Result<(), Memory>
    ensures { OnOk result (ids.new.items ≡ ids.old.items ++ guard_ids guard.now) }
{
    match guard {
        Some(guard) => append_ids(ids, guard.right.pairs.items()),
        None => Ok(()),
    }
}

fn append_ids(ids: &mut Vec<SymbolId>, pairs: &[(SymbolId, i64)]) -> Result<(), Memory>
    ensures { OnOk result (ids.new.items ≡ ids.old.items ++ ids_of pairs.now) }
{
    for pair in pairs {
        ids.push(pair.0)?;
    }
    Ok(())
}
