// The collected form of a theory atom, or its first cause.
ghost use Rattle.std.specs.Prelude.{◌≡◌, ◌≤◌, ◌||◌, [], false, length, map, Err, IfOk, IsTrue};
ghost use Rattle.syntax_tree.specs.declared.literal.TheoryName.TheVariants as theory_name;
ghost use Rattle.ground_model.specs.Sound.{most};
ghost use Rattle.program_meaning.specs.Ascending.{Ascends};
ghost use Rattle.program_meaning.specs.Said.{place_in};
ghost use Rattle.interval_sets.specs.Ranges.{range_cmp};
ghost use Rattle.collected_atoms.specs.Said.{IsKnownAtom, IsKnownRight, guard_in};
ghost use Rattle.collected_atoms.specs.Gathering.{AreKnownPlaces, IsKnownGuard, Collects};
ghost use Rattle.collected_atoms.specs.inner.Settled.{CollectsLinear, CollectsSized, CollectsRanges, IsKnownSettled, is_small_by, is_small_beside};

use crate::atom::{AtomStop, CollectedAtom, CollectedGuard, OutsideCause};
use crate::gathering::{Gathered, JudgedGuard};
use crate::settling::{SettledGuard, settled_guard};
use crate::tuples::distinct_places;
use crate::variables::{MOST, has_many_variables};
use ground_model::IntSet;
use interval_sets::{distinct_ranges, set_of};
use linear_totals::is_small_total;
use program_meaning::CollectedPlace;
use std::alloc::Global;
use symbols::{Listed, Memory, SymbolTable};
use syntax_tree::TheoryName;

/// The collected form of a theory atom of this name, or its first cause.
///
/// Nothing in its elements and its guard is over. It takes O(n log n) for n pairs of variables and coefficients in all
/// tuples and the guard.
pub fn collected_atom(
    alloc: Global,
    name: TheoryName,
    gathered: Gathered,
    guard: Option<JudgedGuard>,
    symbols: &SymbolTable,
) -> Result<CollectedAtom, AtomStop>
    requires places { AreKnownPlaces symbols.now gathered.places }
    requires guard { IsKnownGuard symbols.now guard }
    ensures collects { Collects symbols.now name gathered guard result }
    ensures known { IfOk result (IsKnownAtom symbols.now) }
{
    match settled_guard(guard) {
        None => Err(AtomStop::Outside(OutsideCause::NotLinear)),
        Some(guard) => with_guard(alloc, name, gathered, guard, symbols),
    }
}

// The same where the guard is linear.
fn with_guard(
    alloc: Global,
    name: TheoryName,
    gathered: Gathered,
    guard: SettledGuard,
    symbols: &SymbolTable,
) -> Result<CollectedAtom, AtomStop>
    requires places { AreKnownPlaces symbols.now gathered.places }
    requires guard { IsKnownSettled symbols.now guard }
    ensures crooked { IsTrue gathered.not_linear → result ≡ Err (AtomStop.Outside OutsideCause.NotLinear) }
    ensures collects { gathered.not_linear ≡ false → CollectsLinear symbols.now name gathered guard result }
    ensures known { IfOk result (IsKnownAtom symbols.now) }
{
    if gathered.not_linear {
        return Err(AtomStop::Outside(OutsideCause::NotLinear));
    }
    match name {
        TheoryName::Dom => domain_atom(alloc, gathered, guard, symbols),
        _ => tuple_atom(alloc, name, gathered, guard, symbols),
    }
}

// A theory atom that has tuples.
fn tuple_atom(
    alloc: Global,
    name: TheoryName,
    gathered: Gathered,
    guard: SettledGuard,
    symbols: &SymbolTable,
) -> Result<CollectedAtom, AtomStop>
    requires name { name ≡ theory_name.Dom → ⊥ }
    requires places { AreKnownPlaces symbols.now gathered.places }
    requires guard { IsKnownSettled symbols.now guard }
    ensures collects { CollectsLinear symbols.now name gathered guard result }
    ensures known { IfOk result (IsKnownAtom symbols.now) }
{
    let large = either(gathered.large, guard.large);
    let places = distinct_places(gathered.places.into_vec(), symbols);
    if places.len() > MOST {
        return Err(AtomStop::Outside(OutsideCause::TooManyElements));
    }
    match has_many_variables(alloc, places.items(), &guard.guard, symbols) {
        Err(_) => Err(AtomStop::Memory),
        Ok(true) => Err(AtomStop::Outside(OutsideCause::TooManyElements)),
        Ok(false) => sized_atom(alloc, name, places, large, guard.guard, symbols),
    }
}

fn either(one: bool, other: bool) -> bool
    ensures { result ≡ one || other }
{
    one || other
}

// A theory atom that has few tuples and few variables.
fn sized_atom(
    alloc: Global,
    name: TheoryName,
    places: Listed<CollectedPlace>,
    large: bool,
    guard: Option<CollectedGuard>,
    symbols: &SymbolTable,
) -> Result<CollectedAtom, AtomStop>
    requires name { name ≡ theory_name.Dom → ⊥ }
    requires places { AreKnownPlaces symbols.now places }
    requires guard { IsKnownRight symbols.now guard }
    ensures collects { CollectsSized symbols.now name places large guard result }
    ensures known { IfOk result (IsKnownAtom symbols.now) }
{
    if large {
        return Err(AtomStop::Outside(OutsideCause::TooLarge));
    }
    match has_small_total(alloc, name, places.items(), &guard, symbols) {
        Err(_) => Err(AtomStop::Memory),
        Ok(false) => Err(AtomStop::Outside(OutsideCause::TooLarge)),
        Ok(true) => Ok(CollectedAtom {
            places,
            numbers: IntSet {
                intervals: Listed::new(alloc),
            },
            guard,
        }),
    }
}

// Whether the total minus the right side is small, where there is one.
fn has_small_total(
    alloc: Global,
    name: TheoryName,
    places: &[CollectedPlace],
    guard: &Option<CollectedGuard>,
    symbols: &SymbolTable,
) -> Result<bool, Memory>
    requires places { AreKnownPlaces symbols.now places.now }
    requires guard { IsKnownRight symbols.now guard.now }
    ensures { IfOk result (λ small. small ≡ is_small_by name (map (place_in symbols.now) places.now) (guard_in symbols.now guard.now)) }
{
    match name {
        TheoryName::Sum => is_small_against(alloc, places, guard, symbols),
        TheoryName::Diff => is_small_against(alloc, places, guard, symbols),
        _ => Ok(true),
    }
}

fn is_small_against(
    alloc: Global,
    places: &[CollectedPlace],
    guard: &Option<CollectedGuard>,
    symbols: &SymbolTable,
) -> Result<bool, Memory>
    requires places { AreKnownPlaces symbols.now places.now }
    requires guard { IsKnownRight symbols.now guard.now }
    ensures { IfOk result (λ small. small ≡ is_small_beside (map (place_in symbols.now) places.now) (guard_in symbols.now guard.now)) }
{
    match guard {
        Some(guard) => is_small_total(alloc, places, &guard.right, symbols),
        None => Ok(true),
    }
}

// `&dom`.
fn domain_atom(
    alloc: Global,
    gathered: Gathered,
    guard: SettledGuard,
    symbols: &SymbolTable,
) -> Result<CollectedAtom, AtomStop>
    requires guard { IsKnownSettled symbols.now guard }
    ensures collects { CollectsLinear symbols.now theory_name.Dom gathered guard result }
    ensures known { IfOk result (IsKnownAtom symbols.now) }
{
    let large = either(gathered.large, guard.large);
    let ranges = distinct_ranges(gathered.ranges.into_vec());
    if ranges.len() > MOST {
        return Err(AtomStop::Outside(OutsideCause::TooManyElements));
    }
    let places = Listed::new(alloc);
    match has_many_variables(alloc, places.items(), &guard.guard, symbols) {
        Err(_) => Err(AtomStop::Memory),
        Ok(true) => Err(AtomStop::Outside(OutsideCause::TooManyElements)),
        Ok(false) => domain_of(alloc, ranges, large, places, guard.guard, symbols),
    }
}

// `&dom` with few ranges.
fn domain_of(
    alloc: Global,
    ranges: Listed<(i32, i32)>,
    large: bool,
    places: Listed<CollectedPlace>,
    guard: Option<CollectedGuard>,
    symbols: &SymbolTable,
) -> Result<CollectedAtom, AtomStop>
    requires places { places ≡ [] }
    requires guard { IsKnownRight symbols.now guard }
    requires ranges { Ascends range_cmp ranges }
    requires few { length ranges ≤ most }
    ensures collects { CollectsRanges symbols.now ranges large guard result }
    ensures known { IfOk result (IsKnownAtom symbols.now) }
{
    let _ = symbols;
    if large {
        return Err(AtomStop::Outside(OutsideCause::TooLarge));
    }
    match set_of(alloc, ranges.items()) {
        Err(_) => Err(AtomStop::Memory),
        Ok(numbers) => Ok(CollectedAtom {
            places,
            numbers,
            guard,
        }),
    }
}
