// The elements of a ground choice.
ghost use Rattle.std.specs.Prelude.{◌≡◌, ◌<◌, [], ◌∷◌, ◌++◌, length, map, All, IfOk, OnOk, Some};
ghost use Rattle.std.specs.List.{AllByRecursion, AllZip};
ghost use Rattle.symbols.specs.Table.{IsFront};
ghost use Rattle.syntax_tree.specs.Outcome.{IsKnown};
ghost use Rattle.program_meaning.specs.Said.{value_in};
ghost use Rattle.program_meaning.specs.Variables.{globals};
ghost use Rattle.instance_search.specs.Found.{rows_in};
ghost use Rattle.planned_rules.specs.Planned.{rule_of, element_of, IsPlanned, IsPlannedChoice};
ghost use Rattle.symbol_rules.specs.Reading.{item_in, HasItem};
ghost use Rattle.count_laws.specs.Keys.{keys_from};
ghost use Rattle.choice_instances.specs.inner.Items.{IsInside, AreInside, IsItemAt, IsItemOf};

use crate::item::item;
use instance_search::Row;
use planned_rules::{PlannedChoice, PlannedRule};
use std::alloc::Global;
use symbol_rules::SymbolItem;
use symbols::{Listed, Memory, SymbolTable};
use syntax_tree::Value;

// The elements at the rows of all elements.
pub(crate) fn items(
    alloc: Global,
    rule: &PlannedRule,
    values: &[Value],
    rows: &[Listed<Row>],
    symbols: &mut SymbolTable,
) -> Result<Listed<SymbolItem>, Memory>
    requires planned { IsPlanned rule.now }
    requires each { length values.now ≡ length (globals (rule_of rule.now)) }
    requires values { AllByRecursion (λ value. IsKnown (length symbols.old) (Some value)) values.now }
    requires rows { AreInside symbols.old (rule_of rule.now) (map (value_in symbols.old) values.now) rows.now }
    requires count { length rows.now ≡ length rule.now.choices }
    ensures items { IfOk result (λ made. AllZip (IsItemOf (rule_of rule.now) (map (value_in symbols.old) values.now)) (keys_from 0 (map (rows_in symbols.old) rows.now)) (map (item_in symbols.new) made)) }
    ensures known { IfOk result (AllByRecursion (HasItem (length symbols.new))) }
    ensures kept { IsFront symbols.old symbols.new }
{
    let mut made = Listed::new(alloc);
    for place in 0..rows.len() {
        let choice = &rule.choices.items()[place];
        match items_of(alloc, rule, choice, values, rows[place].items(), symbols) {
            Ok(mut more) => match joined(&mut made, &mut more) {
                Ok(()) => {}
                Err(memory) => return Err(memory),
            },
            Err(memory) => return Err(memory),
        }
    }
    Ok(made)
}

fn joined(made: &mut Listed<SymbolItem>, more: &mut Listed<SymbolItem>) -> Result<(), Memory>
    ensures { OnOk result (made.new ≡ made.old ++ more.old) }
{
    made.append_list(more)
}

// The elements at the rows of one element.
fn items_of(
    alloc: Global,
    rule: &PlannedRule,
    choice: &PlannedChoice,
    values: &[Value],
    rows: &[Row],
    symbols: &mut SymbolTable,
) -> Result<Listed<SymbolItem>, Memory>
    requires planned { IsPlannedChoice (rule_of rule.now) choice.now }
    requires each { length values.now ≡ length (globals (rule_of rule.now)) }
    requires values { AllByRecursion (λ value. IsKnown (length symbols.old) (Some value)) values.now }
    requires rows { AllByRecursion (IsInside symbols.old (rule_of rule.now) (map (value_in symbols.old) values.now) (element_of choice.now)) rows.now }
    ensures items { IfOk result (λ made. AllZip (IsItemAt (rule_of rule.now) (map (value_in symbols.old) values.now) (element_of choice.now)) (rows_in symbols.old rows.now) (map (item_in symbols.new) made)) }
    ensures known { IfOk result (AllByRecursion (HasItem (length symbols.new))) }
    ensures kept { IsFront symbols.old symbols.new }
{
    let mut made = Listed::new(alloc);
    for place in 0..rows.len() {
        match item(alloc, rule, choice, values, &rows[place], symbols) {
            Ok(one) => match pushed(&mut made, one) {
                Ok(()) => {}
                Err(memory) => return Err(memory),
            },
            Err(memory) => return Err(memory),
        }
    }
    Ok(made)
}

fn pushed(made: &mut Listed<SymbolItem>, one: SymbolItem) -> Result<(), Memory>
    ensures { OnOk result (made.new ≡ made.old ++ one ∷ []) }
{
    made.push(one)
}
