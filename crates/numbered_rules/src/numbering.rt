// Numbers by id, and rules and tuples over them.
ghost use Rattle.std.specs.Prelude.{◌≡◌, ◌<◌, ◌^◌, List, length, map, IfOk};
ghost use Rattle.std.specs.List.{AllByRecursion};
ghost use Rattle.symbols.specs.Symbol.{Symbol};
ghost use Rattle.symbols.specs.Table.{symbol_at};
ghost use Rattle.ground_model.specs.View.{place_of, rule_of};
ghost use Rattle.program_meaning.specs.Canonical.{place_numbered, rule_numbered};
ghost use Rattle.program_meaning.specs.Said.{place_in};
ghost use Rattle.symbol_rules.specs.Reading.{rule_in, HasPlace, HasRule};
ghost use Rattle.ground_rule_laws.specs.Laws.{AreKnownPlaces, IsKnownRule};
ghost use Rattle.numbered_rules.specs.Numbers.{HaveNumbers};

use crate::linear::places;
use crate::numbers::places_of_ids;
use crate::rules::rules_of;
use ground_model::{GroundRule, Place};
use program_meaning::CollectedPlace;
use std::alloc::Global;
use symbol_rules::SymbolRule;
use symbols::{Listed, Memory, SymbolId, SymbolTable};

/// For each symbol of a table its number among those of the ids, counted from 1; 0 where it has none. Linear in
/// both.
pub fn numbers_by_id(
    alloc: Global,
    symbols: &SymbolTable,
    ids: &[SymbolId],
) -> Result<Vec<u32>, Memory>
    requires known { AllByRecursion (λ id. id < length symbols.now) ids.now }
    requires few { length ids.now < 2 ^ 32 }
    ensures { IfOk result (λ numbers. HaveNumbers symbols.now (map (symbol_at symbols.now) ids.now) numbers.items) }
{
    symbols.symbols_are_distinct();
    let numbers = places_of_ids(alloc, symbols.len(), ids)?;
    Ok(numbers)
}

/// Tuples over the numbers of their variables.
pub fn numbered_places(
    alloc: Global,
    numbers: &[u32],
    held: &[CollectedPlace],
) -> Result<Listed<Place>, Memory>
    requires { AllByRecursion (HasPlace (length numbers.now)) held.now }
    ensures places { IfOk result (λ made. (symbols variables : List Symbol) → HaveNumbers symbols variables numbers.now → map (place_of symbols) made ≡ map (place_numbered variables) (map (place_in symbols) held.now)) }
    ensures known { IfOk result (AreKnownPlaces (length numbers.now)) }
{
    let made = places(alloc, numbers, held)?;
    Ok(made)
}

/// Rules over the numbers of their atoms and variables. Literals and elements of a choice whose atom has no number
/// are left out.
pub fn numbered_rules(
    alloc: Global,
    atom_numbers: &[u32],
    numbers: &[u32],
    held: &[SymbolRule],
) -> Result<Listed<GroundRule>, Memory>
    requires size { length atom_numbers.now ≡ length numbers.now }
    requires rules { AllByRecursion (HasRule (length numbers.now) (length numbers.now)) held.now }
    ensures rules { IfOk result (λ made. (symbols atoms variables : List Symbol) → HaveNumbers symbols atoms atom_numbers.now → HaveNumbers symbols variables numbers.now → map (rule_of symbols) made ≡ map (rule_numbered atoms variables) (map (rule_in symbols) held.now)) }
    ensures known { IfOk result (AllByRecursion (IsKnownRule (length numbers.now))) }
{
    let made = rules_of(alloc, atom_numbers, numbers, held)?;
    Ok(made)
}
