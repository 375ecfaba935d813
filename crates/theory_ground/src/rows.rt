// The instances of an element, one by one.
ghost use Rattle.std.specs.Prelude.{◌≡◌, length, map, IfOk, OnOk, Err, Some, IsTrue};
ghost use Rattle.std.specs.List.{AllByRecursion};
ghost use Rattle.symbols.specs.Table.{IsFront};
ghost use Rattle.syntax_tree.specs.Literals.{is_theory_element};
ghost use Rattle.syntax_tree.specs.Outcome.{IsKnown};
ghost use Rattle.program_meaning.specs.Said.{value_in};
ghost use Rattle.program_meaning.specs.Theory.{element_over};
ghost use Rattle.instance_rows.specs.Tests.{are_over};
ghost use Rattle.instance_plans.specs.Plans.{element_read, tests_of};
ghost use Rattle.instance_search.specs.Found.{row_in, rows_in, IsKnownRow};
ghost use Rattle.collected_elements.specs.Judged.{IsJudged, IsKnownElement};
ghost use Rattle.theory_ground.specs.inner.Rows.{bound_by, IsRowOver, HasOne, HasAll, IsSomeRowOver, HasFlag};

use collected_atoms::{Gathered, gather};
use collected_elements::{ElementStop, JudgedElement, judge_element};
use instance_plans::Plan;
use instance_search::{Row, binding_of};
use std::alloc::Global;
use symbols::SymbolTable;
use syntax_tree::{TheoryElement, TheoryName, Value};

// Judges the instances of an element in rows, and puts together what they come to.
pub(crate) fn gather_rows<'a>(
    alloc: Global,
    name: TheoryName,
    element: &TheoryElement,
    plan: &Plan<'a>,
    given: &[Value],
    rows: &[Row],
    symbols: &mut SymbolTable,
    gathered: &mut Gathered,
) -> Result<(), ElementStop>
    requires element { IsTrue (is_theory_element element.now) }
    requires each { length given.now ≡ length plan.now.given }
    requires values { AllByRecursion (λ value. IsKnown (length symbols.old) (Some value)) given.now }
    requires rows { AllByRecursion (IsKnownRow (length symbols.old)) rows.now }
    requires lengths { AllByRecursion (λ row. length row.values ≡ length plan.now.variables) rows.now }
    requires flags { AllByRecursion (HasFlag symbols.old plan.now (map (value_in symbols.old) given.now)) rows.now }
    ensures all { OnOk result (HasAll symbols.new name (element_read element.now) plan.now (map (value_in symbols.old) given.now) (rows_in symbols.old rows.now) gathered.old gathered.new) }
    ensures over { result ≡ Err ElementStop.Over → IsSomeRowOver name (element_read element.now) plan.now (map (value_in symbols.old) given.now) (rows_in symbols.old rows.now) }
    ensures kept { IsFront symbols.old symbols.new }
{
    for place in 0..rows.len() {
        match gather_row(
            alloc,
            name,
            element,
            plan,
            given,
            &rows[place],
            symbols,
            gathered,
        ) {
            Ok(()) => {}
            Err(stop) => return Err(stop),
        }
    }
    Ok(())
}

// Judges one instance, and adds what it comes to.
fn gather_row<'a>(
    alloc: Global,
    name: TheoryName,
    element: &TheoryElement,
    plan: &Plan<'a>,
    given: &[Value],
    row: &Row,
    symbols: &mut SymbolTable,
    gathered: &mut Gathered,
) -> Result<(), ElementStop>
    requires element { IsTrue (is_theory_element element.now) }
    requires each { length given.now ≡ length plan.now.given }
    requires values { AllByRecursion (λ value. IsKnown (length symbols.old) (Some value)) given.now }
    requires row { IsKnownRow (length symbols.old) row.now }
    requires lengths { length row.now.values ≡ length plan.now.variables }
    requires flag { HasFlag symbols.old plan.now (map (value_in symbols.old) given.now) row.now }
    ensures one { OnOk result (HasOne symbols.new name (element_read element.now) plan.now (map (value_in symbols.old) given.now) (row_in symbols.old row.now) gathered.old gathered.new) }
    ensures over { result ≡ Err ElementStop.Over → IsRowOver name (element_read element.now) plan.now (map (value_in symbols.old) given.now) (row_in symbols.old row.now) }
    ensures kept { IsFront symbols.old symbols.new }
{
    if row.over {
        return Err(ElementStop::Over);
    }
    match judge_row(alloc, name, element, plan, given, row, symbols) {
        Err(stop) => Err(stop),
        Ok(judged) => match gather(gathered, judged) {
            Ok(()) => Ok(()),
            Err(_) => Err(ElementStop::Memory),
        },
    }
}

fn judge_row<'a>(
    alloc: Global,
    name: TheoryName,
    element: &TheoryElement,
    plan: &Plan<'a>,
    given: &[Value],
    row: &Row,
    symbols: &mut SymbolTable,
) -> Result<JudgedElement, ElementStop>
    requires element { IsTrue (is_theory_element element.now) }
    requires each { length given.now ≡ length plan.now.given }
    requires values { AllByRecursion (λ value. IsKnown (length symbols.old) (Some value)) given.now }
    requires row { IsKnownRow (length symbols.old) row.now }
    requires lengths { length row.now.values ≡ length plan.now.variables }
    ensures judged { IfOk result (IsJudged symbols.new name (bound_by plan.now (map (value_in symbols.old) given.now) (row_in symbols.old row.now)) (element_read element.now)) }
    ensures known { IfOk result (IsKnownElement symbols.new) }
    ensures over { result ≡ Err ElementStop.Over → IsTrue (element_over name (bound_by plan.now (map (value_in symbols.old) given.now) (row_in symbols.old row.now)) (element_read element.now)) }
    ensures kept { IsFront symbols.old symbols.new }
{
    match binding_of(alloc, plan, given, row.values.items()) {
        Err(_) => Err(ElementStop::Memory),
        Ok(binding) => judge_element(alloc, name, element, &binding, symbols),
    }
}
