// A ground choice.
ghost use Rattle.std.specs.Prelude.{◌≡◌, ◌<◌, length, map, true, false, All, IfOk, IsTrue, Some};
ghost use Rattle.std.specs.List.{AllByRecursion, AllZip};
ghost use Rattle.symbols.specs.Table.{IsFront};
ghost use Rattle.syntax_tree.specs.Outcome.{IsKnown, bound_in as bound_at};
ghost use Rattle.syntax_tree.specs.Statements.{is_choice};
ghost use Rattle.ground_model.specs.Members.{IsMember};
ghost use Rattle.program_meaning.specs.Ascending.{Exceeds};
ghost use Rattle.program_meaning.specs.Count.{choices_in};
ghost use Rattle.program_meaning.specs.Ground.{BoundAs, ChoiceAs, turned};
ghost use Rattle.program_meaning.specs.Instance.{bound_in, IsInstance, IsRelevantChoice};
ghost use Rattle.program_meaning.specs.Outside.{is_rule_over, is_choice_over};
ghost use Rattle.program_meaning.specs.Read.{ReadChoice, ReadChoose, choice_read};
ghost use Rattle.program_meaning.specs.Said.{value_in};
ghost use Rattle.program_meaning.specs.Substitution.{Key};
ghost use Rattle.program_meaning.specs.Variables.{globals};
ghost use Rattle.instance_search.specs.Found.{rows_in};
ghost use Rattle.match_index.specs.Atoms.{IsIndexOf};
ghost use Rattle.row_tests.specs.Judged.{atoms_in};
ghost use Rattle.planned_rules.specs.Planned.{rule_of, IsPlanned};
ghost use Rattle.symbol_rules.specs.Reading.{item_in, HasItem};
ghost use Rattle.count_laws.specs.Keys.{keys_from};
ghost use Rattle.count_laws.specs.Counting.{IsChoiceKey};
ghost use Rattle.choice_instances.specs.inner.Items.{AreInside, AreBounds, IsItemOf};

use crate::bound::{left_bound, right_bound};
use crate::items::items;
use choice_rows::{choice_rows, has_over};
use instance_search::{Row, RowsStop, binding_of};
use match_index::Index;
use planned_rules::PlannedRule;
use std::alloc::Global;
use symbol_rules::{SymbolChoice, SymbolItem};
use symbols::{Listed, Memory, SymbolTable};
use syntax_tree::{Binding, Choice, Value};

/// Why there is no ground choice.
#[derive(Clone, Copy, Debug, PartialEq, Eq)]
pub enum ChoiceStop {
    /// There are more element instances than the most that were allowed.
    TooMany,
    /// Something in an element instance is over.
    Over,
    Memory,
}

/// The choice of a rule at an instance at which no term or comparison outside the choice's elements is over: the
/// relevant instances of its elements in order, and its bounds. The rule's global variables have these values, and
/// the atoms are those of the index.
pub fn ground_choice(
    alloc: Global,
    rule: &PlannedRule,
    choice: &Choice,
    values: &[Value],
    index: &Index,
    symbols: &mut SymbolTable,
    most: usize,
) -> Result<SymbolChoice, ChoiceStop>
    requires planned { IsPlanned rule.now }
    requires tree { IsTrue (is_choice choice.now) }
    requires head { (rule_of rule.now).head ≡ ReadChoose choice.now.left (map choice_read choice.now.elements) choice.now.right }
    requires values { All (λ value. IsKnown (length symbols.old) (Some value)) values.now }
    requires index { IsIndexOf symbols.old index.now }
    requires instance { IsInstance (rule_of rule.now) (map (value_in symbols.old) values.now) }
    requires inside { is_rule_over (rule_of rule.now) (map (value_in symbols.old) values.now) ≡ false }
    ensures choice { IfOk result (λ made. ChoiceAs (IsMember (atoms_in symbols.old index.now)) (rule_of rule.now) (map (value_in symbols.old) values.now)
        choice.now.left (choices_in (rule_of rule.now).head) choice.now.right (map (item_in symbols.new) made.items) made.left made.right) }
    ensures inside { IfOk result (λ made. (key : Key) (element : ReadChoice) → IsRelevantChoice (IsMember (atoms_in symbols.old index.now)) (rule_of rule.now) (map (value_in symbols.old) values.now) (choices_in (rule_of rule.now).head) key element
        → is_choice_over (rule_of rule.now) (map (value_in symbols.old) values.now) element key.values ≡ false) }
    ensures over { result ≡ Err ChoiceStop.Over → (key : Key) × (element : ReadChoice) × IsRelevantChoice (IsMember (atoms_in symbols.old index.now)) (rule_of rule.now) (map (value_in symbols.old) values.now) (choices_in (rule_of rule.now).head) key element
        × (is_choice_over (rule_of rule.now) (map (value_in symbols.old) values.now) element key.values ≡ true) }
    ensures many { result ≡ Err ChoiceStop.TooMany → Exceeds (IsChoiceKey (IsMember (atoms_in symbols.old index.now)) (rule_of rule.now) (map (value_in symbols.old) values.now)) most }
    ensures known { IfOk result (λ made. AllByRecursion (HasItem (length symbols.new)) made.items) }
    ensures kept { IsFront symbols.old symbols.new }
{
    match choice_rows(alloc, rule, values, index, symbols, most) {
        Ok(rows) => {
            if has_over(rows.items()) {
                return Err(ChoiceStop::Over);
            }
            match with_items(alloc, rule, choice, values, rows.items(), symbols) {
                Ok(made) => Ok(made),
                Err(Memory) => Err(ChoiceStop::Memory),
            }
        }
        Err(RowsStop::TooMany) => Err(ChoiceStop::TooMany),
        Err(RowsStop::Memory) => Err(ChoiceStop::Memory),
    }
}

// The choice with the elements at these rows, in which nothing is over.
fn with_items(
    alloc: Global,
    rule: &PlannedRule,
    choice: &Choice,
    values: &[Value],
    rows: &[Listed<Row>],
    symbols: &mut SymbolTable,
) -> Result<SymbolChoice, Memory>
    requires planned { IsPlanned rule.now }
    requires tree { IsTrue (is_choice choice.now) }
    requires each { length values.now ≡ length (globals (rule_of rule.now)) }
    requires values { AllByRecursion (λ value. IsKnown (length symbols.old) (Some value)) values.now }
    requires rows { AreInside symbols.old (rule_of rule.now) (map (value_in symbols.old) values.now) rows.now }
    requires count { length rows.now ≡ length rule.now.choices }
    requires stands { AreBounds (bound_in (rule_of rule.now) (map (value_in symbols.old) values.now)) choice.now.left choice.now.right }
    ensures items { IfOk result (λ made. AllZip (IsItemOf (rule_of rule.now) (map (value_in symbols.old) values.now)) (keys_from 0 (map (rows_in symbols.old) rows.now)) (map (item_in symbols.new) made.items)) }
    ensures low { IfOk result (λ made. BoundAs turned (bound_in (rule_of rule.now) (map (value_in symbols.old) values.now)) choice.now.left made.left) }
    ensures high { IfOk result (λ made. BoundAs (λ rel. rel) (bound_in (rule_of rule.now) (map (value_in symbols.old) values.now)) choice.now.right made.right) }
    ensures known { IfOk result (λ made. AllByRecursion (HasItem (length symbols.new)) made.items) }
    ensures kept { IsFront symbols.old symbols.new }
{
    match items(alloc, rule, values, rows, symbols) {
        Ok(items) => with_bounds(alloc, rule, choice, values, items, symbols),
        Err(memory) => Err(memory),
    }
}

// The choice with these elements.
fn with_bounds(
    alloc: Global,
    rule: &PlannedRule,
    choice: &Choice,
    values: &[Value],
    items: Listed<SymbolItem>,
    symbols: &mut SymbolTable,
) -> Result<SymbolChoice, Memory>
    requires planned { IsPlanned rule.now }
    requires tree { IsTrue (is_choice choice.now) }
    requires each { length values.now ≡ length (globals (rule_of rule.now)) }
    requires values { AllByRecursion (λ value. IsKnown (length symbols.old) (Some value)) values.now }
    requires items { AllByRecursion (HasItem (length symbols.old)) items }
    requires stands { AreBounds (bound_in (rule_of rule.now) (map (value_in symbols.old) values.now)) choice.now.left choice.now.right }
    ensures items { IfOk result (λ made. map (item_in symbols.new) made.items ≡ map (item_in symbols.old) items) }
    ensures low { IfOk result (λ made. BoundAs turned (bound_in (rule_of rule.now) (map (value_in symbols.old) values.now)) choice.now.left made.left) }
    ensures high { IfOk result (λ made. BoundAs (λ rel. rel) (bound_in (rule_of rule.now) (map (value_in symbols.old) values.now)) choice.now.right made.right) }
    ensures known { IfOk result (λ made. AllByRecursion (HasItem (length symbols.new)) made.items) }
    ensures kept { IsFront symbols.old symbols.new }
{
    match binding_of(alloc, &rule.plan, &[], values) {
        Ok(binding) => bounded(alloc, choice, items, &binding, symbols),
        Err(memory) => Err(memory),
    }
}

fn bounded(
    alloc: Global,
    choice: &Choice,
    items: Listed<SymbolItem>,
    binding: &Binding,
    symbols: &mut SymbolTable,
) -> Result<SymbolChoice, Memory>
    requires tree { IsTrue (is_choice choice.now) }
    requires binding { All (IsKnown (length symbols.old)) binding.now.values }
    requires items { AllByRecursion (HasItem (length symbols.old)) items }
    requires stands { AreBounds (bound_at symbols.old binding.now.values) choice.now.left choice.now.right }
    ensures items { IfOk result (λ made. map (item_in symbols.new) made.items ≡ map (item_in symbols.old) items) }
    ensures low { IfOk result (λ made. BoundAs turned (bound_at symbols.old binding.now.values) choice.now.left made.left) }
    ensures high { IfOk result (λ made. BoundAs (λ rel. rel) (bound_at symbols.old binding.now.values) choice.now.right made.right) }
    ensures known { IfOk result (λ made. AllByRecursion (HasItem (length symbols.new)) made.items) }
    ensures kept { IsFront symbols.old symbols.new }
{
    match left_bound(alloc, &choice.left, binding, symbols) {
        Ok(left) => match right_bound(alloc, &choice.right, binding, symbols) {
            Ok(right) => Ok(SymbolChoice { items, left, right }),
            Err(memory) => Err(memory),
        },
        Err(memory) => Err(memory),
    }
}
