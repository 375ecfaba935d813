// An element of a ground choice.
ghost use Rattle.std.specs.Prelude.{◌≡◌, length, map, true, false, All, IfOk, IsTrue, Some};
ghost use Rattle.std.specs.List.{AllByRecursion};
ghost use Rattle.symbols.specs.Table.{IsFront};
ghost use Rattle.syntax_tree.specs.Outcome.{IsKnown, IsSymbol, bound_in};
ghost use Rattle.syntax_tree.specs.Statements.{is_choice_element};
ghost use Rattle.syntax_tree.specs.Value.{value_of};
ghost use Rattle.program_meaning.specs.Ground.{AtomsAs};
ghost use Rattle.program_meaning.specs.Read.{choice_read};
ghost use Rattle.program_meaning.specs.Theory.{is_defined, is_over};
ghost use Rattle.program_meaning.specs.Said.{value_in};
ghost use Rattle.program_meaning.specs.Variables.{globals};
ghost use Rattle.instance_search.specs.Found.{row_in};
ghost use Rattle.planned_rules.specs.Planned.{rule_of, element_of, IsPlannedChoice};
ghost use Rattle.symbol_rules.specs.Reading.{item_in, HasItem};
ghost use Rattle.choice_instances.specs.inner.Items.{IsInside, IsItemAt};

use crate::atom::symbol_of;
use instance_bodies::ground_literals;
use instance_search::{Row, binding_of};
use planned_rules::{PlannedChoice, PlannedRule};
use std::alloc::Global;
use symbol_rules::SymbolItem;
use symbols::{Memory, SymbolTable};
use syntax_tree::{Binding, ChoiceElement, Value};

// The element at a row.
pub(crate) fn item(
    alloc: Global,
    rule: &PlannedRule,
    choice: &PlannedChoice,
    values: &[Value],
    row: &Row,
    symbols: &mut SymbolTable,
) -> Result<SymbolItem, Memory>
    requires planned { IsPlannedChoice (rule_of rule.now) choice.now }
    requires each { length values.now ≡ length (globals (rule_of rule.now)) }
    requires values { AllByRecursion (λ value. IsKnown (length symbols.old) (Some value)) values.now }
    requires row { IsInside symbols.old (rule_of rule.now) (map (value_in symbols.old) values.now) (element_of choice.now) row.now }
    ensures item { IfOk result (λ made. IsItemAt (rule_of rule.now) (map (value_in symbols.old) values.now) (element_of choice.now) (row_in symbols.old row.now) (item_in symbols.new made)) }
    ensures known { IfOk result (HasItem (length symbols.new)) }
    ensures kept { IsFront symbols.old symbols.new }
{
    let _ = rule;
    match binding_of(alloc, &choice.plan, values, row.values.items()) {
        Ok(binding) => item_at(alloc, choice.element, &binding, symbols),
        Err(memory) => Err(memory),
    }
}

// The element at a binding.
fn item_at(
    alloc: Global,
    element: &ChoiceElement,
    binding: &Binding,
    symbols: &mut SymbolTable,
) -> Result<SymbolItem, Memory>
    requires tree { IsTrue (is_choice_element element.now) }
    requires binding { All (IsKnown (length symbols.old)) binding.now.values }
    requires defined { is_defined (value_of (bound_in symbols.old binding.now.values) element.now.atom) ≡ true }
    requires inside { is_over (value_of (bound_in symbols.old binding.now.values) element.now.atom) ≡ false }
    ensures atom { IfOk result (λ made. value_of (bound_in symbols.old binding.now.values) element.now.atom ≡ IsSymbol (item_in symbols.new made).atom) }
    ensures condition { IfOk result (λ made. AtomsAs (bound_in symbols.old binding.now.values) (choice_read element.now).condition (item_in symbols.new made).condition) }
    ensures known { IfOk result (HasItem (length symbols.new)) }
    ensures kept { IsFront symbols.old symbols.new }
{
    match symbol_of(alloc, &element.atom, binding, symbols) {
        Ok(atom) => match ground_literals(alloc, element.condition.items(), binding, symbols) {
            Ok(condition) => Ok(SymbolItem { atom, condition }),
            Err(memory) => Err(memory),
        },
        Err(memory) => Err(memory),
    }
}
