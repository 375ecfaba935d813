// The instances of all elements of a theory atom.
ghost use Rattle.std.specs.Prelude.{◌≡◌, ◌<◌, length, map, All, IfOk, OnOk, Err, Some, IsTrue};
ghost use Rattle.symbols.specs.Table.{IsFront};
ghost use Rattle.syntax_tree.specs.Literals.{is_theory_element};
ghost use Rattle.syntax_tree.specs.Outcome.{IsKnown};
ghost use Rattle.ground_model.specs.Members.{IsMember};
ghost use Rattle.match_index.specs.Atoms.{IsIndexOf};
ghost use Rattle.program_meaning.specs.Ascending.{Exceeds};
ghost use Rattle.program_meaning.specs.Said.{value_in};
ghost use Rattle.instance_plans.specs.Plans.{element_read};
ghost use Rattle.instance_plans.specs.Terms.{AreTerms};
ghost use Rattle.instance_search.specs.Found.{plan_rows};
ghost use Rattle.row_tests.specs.Judged.{atoms_in};
ghost use Rattle.theory_laws.specs.Collecting.{IsAtomOver, IsElementKey};
ghost use Rattle.theory_plans.specs.Planned.{IsPlanOf, FitsPlan};
ghost use Rattle.theory_ground.specs.inner.Rows.{IsPlanOfElement, HasAll, IsSomeRowOver, IsWhole};

use crate::rows::gather_rows;
use collected_atoms::{Gathered, nothing_gathered};
use collected_elements::ElementStop;
use instance_plans::Plan;
use instance_search::{RowsStop, rows};
use match_index::Index;
use std::alloc::Global;
use symbols::SymbolTable;
use syntax_tree::{TheoryElement, TheoryName, Value};
use theory_plans::TheoryPlan;

// Why the instances are not gathered.
#[derive(Clone, Copy, PartialEq, Eq)]
pub(crate) enum GatherStop {
    TooMany,
    Over,
    Memory,
}

// What the instances of all elements come to, each element's up to a number.
pub(crate) fn gather_elements<'a>(
    alloc: Global,
    plan: &TheoryPlan<'a>,
    values: &[Value],
    index: &Index,
    symbols: &mut SymbolTable,
    most: usize,
) -> Result<Gathered, GatherStop>
    requires plan { IsPlanOf plan.now (length values.now) }
    requires values { All (λ value. IsKnown (length symbols.old) (Some value)) values.now }
    requires index { IsIndexOf symbols.old index.now }
    ensures gathered { IfOk result (λ gathered. FitsPlan plan.now (length values.now) (λ rule theory. IsWhole symbols.new (IsMember (atoms_in symbols.old index.now)) rule (map (value_in symbols.old) values.now) theory gathered)) }
    ensures over { result ≡ Err GatherStop.Over → FitsPlan plan.now (length values.now) (λ rule theory. IsAtomOver (IsMember (atoms_in symbols.old index.now)) rule (map (value_in symbols.old) values.now) theory) }
    ensures many { result ≡ Err GatherStop.TooMany → FitsPlan plan.now (length values.now) (λ rule theory. Exceeds (IsElementKey (IsMember (atoms_in symbols.old index.now)) rule (map (value_in symbols.old) values.now) theory) most) }
    ensures kept { IsFront symbols.old symbols.new }
{
    symbols.symbols_are_distinct();
    let elements = plan.theory.elements.as_slice();
    let plans = plan.elements.items();
    let mut gathered = nothing_gathered(alloc);
    for place in 0..plans.len() {
        match gather_element(
            alloc,
            plan.theory.name,
            &elements[place],
            &plans[place],
            values,
            index,
            symbols,
            most,
            &mut gathered,
        ) {
            Ok(()) => {}
            Err(stop) => return Err(stop),
        }
    }
    Ok(gathered)
}

// What the instances of an element come to, added to those of others.
fn gather_element<'a>(
    alloc: Global,
    name: TheoryName,
    element: &TheoryElement,
    plan: &Plan<'a>,
    given: &[Value],
    index: &Index,
    symbols: &mut SymbolTable,
    most: usize,
    gathered: &mut Gathered,
) -> Result<(), GatherStop>
    requires plan { IsPlanOfElement (element_read element.now) plan.now (length given.now) }
    requires terms { AreTerms plan.now }
    requires element { IsTrue (is_theory_element element.now) }
    requires values { All (λ value. IsKnown (length symbols.old) (Some value)) given.now }
    requires index { IsIndexOf symbols.old index.now }
    ensures all { OnOk result (HasAll symbols.new name (element_read element.now) plan.now (map (value_in symbols.old) given.now) (plan_rows (atoms_in symbols.old index.now) plan.now (map (value_in symbols.old) given.now)) gathered.old gathered.new) }
    ensures over { result ≡ Err GatherStop.Over → IsSomeRowOver name (element_read element.now) plan.now (map (value_in symbols.old) given.now) (plan_rows (atoms_in symbols.old index.now) plan.now (map (value_in symbols.old) given.now)) }
    ensures many { result ≡ Err GatherStop.TooMany → most < length (plan_rows (atoms_in symbols.old index.now) plan.now (map (value_in symbols.old) given.now)) }
    ensures kept { IsFront symbols.old symbols.new }
{
    symbols.symbols_are_distinct();
    match rows(alloc, plan, given, index, symbols, most) {
        Err(stop) => Err(stop_of_rows(stop)),
        Ok(found) => {
            match gather_rows(
                alloc,
                name,
                element,
                plan,
                given,
                found.items(),
                symbols,
                gathered,
            ) {
                Ok(()) => Ok(()),
                Err(stop) => Err(stop_of_element(stop)),
            }
        }
    }
}

fn stop_of_rows(stop: RowsStop) -> GatherStop
    ensures many { result ≡ GatherStop.TooMany → stop ≡ RowsStop.TooMany }
    ensures over { result ≡ GatherStop.Over → ⊥ }
{
    match stop {
        RowsStop::TooMany => GatherStop::TooMany,
        RowsStop::Memory => GatherStop::Memory,
    }
}

fn stop_of_element(stop: ElementStop) -> GatherStop
    ensures over { result ≡ GatherStop.Over → stop ≡ ElementStop.Over }
    ensures many { result ≡ GatherStop.TooMany → ⊥ }
{
    match stop {
        ElementStop::Over => GatherStop::Over,
        ElementStop::Memory => GatherStop::Memory,
    }
}
