// Whether each rule's head holds where its body does.
ghost use Rattle.std.specs.Prelude.{◌≡◌, ◌<◌, ◌-◌, ℕ, true, false, length, map, slice_index_or, IfOk};
ghost use Rattle.std.specs.List.{AllByRecursion, list_all};
ghost use Rattle.ground_model.specs.Answers.{has_atom};
ghost use Rattle.ground_model.specs.Duties.{chosen, is_taken as taken_test, head_holds as head_test, rule_holds as rule_test};
ghost use Rattle.ground_model.specs.Model.{allows as allows_test};
ghost use Rattle.ground_model.specs.Sizes.{IsModest, IsReadable, IsReadableItem, IsReadableHead, IsReadableRule};
ghost use Rattle.ground_model.specs.Ways.{literal_holds as literal_test};
ghost use Rattle.ground_model.specs.World.{world_by, AreClear};

use crate::rule::{BodyLit, Bound, ChoiceItem, GroundHead, GroundRule};
use crate::theory::theory_holds;
use crate::value::{compare, relation_holds};
use std::alloc::Global;
use symbols::Memory;

// Whether each rule's head holds where its body does.
pub(crate) fn rules_hold(
    alloc: Global,
    rules: &[GroundRule],
    flags: &[bool],
    values: &[i32],
) -> Result<bool, Memory>
    requires flags { 0 < length flags.now }
    requires rules { AllByRecursion (IsReadableRule (length flags.now - 1) (length values.now)) rules.now }
    requires values { AllByRecursion IsModest values.now }
    ensures { IfOk result (λ hold. hold ≡ list_all (rule_test (world_by flags.now values.now)) rules.now) }
{
    let mut seen = vec![in alloc; false; flags.len()]?;
    for rule in rules {
        if !rule_holds(alloc, rule, flags, values, &mut seen)? {
            return Ok(false);
        }
    }
    Ok(true)
}

// Whether a rule's head holds where its body does; `seen` has no mark, before and after.
fn rule_holds(
    alloc: Global,
    rule: &GroundRule,
    flags: &[bool],
    values: &[i32],
    seen: &mut [bool],
) -> Result<bool, Memory>
    requires flags { 0 < length flags.now }
    requires rule { IsReadableRule (length flags.now - 1) (length values.now) rule.now }
    requires values { AllByRecursion IsModest values.now }
    requires seen { length seen.old ≡ length flags.now }
    requires clear { AreClear seen.old }
    ensures holds { IfOk result (λ holds. holds ≡ rule_test (world_by flags.now values.now) rule.now) }
    ensures clear { IfOk result (λ _. AreClear seen.new) }
{
    if body_holds(rule.body.items(), flags, values) {
        head_holds(alloc, &rule.head, flags, values, seen)
    } else {
        Ok(true)
    }
}

// Whether a literal holds.
fn literal_holds(literal: &BodyLit, flags: &[bool], values: &[i32]) -> bool
    requires flags { 0 < length flags.now }
    requires literal { IsReadable (length flags.now - 1) (length values.now) literal.now }
    requires values { AllByRecursion IsModest values.now }
    ensures { result ≡ literal_test (world_by flags.now values.now) literal.now }
{
    match literal {
        BodyLit::Atom(atom, true) => flags[*atom as usize],
        BodyLit::Atom(atom, false) => !flags[*atom as usize],
        BodyLit::Theory(relation, true) => relation_holds(relation, values),
        BodyLit::Theory(relation, false) => !relation_holds(relation, values),
    }
}

// Whether all literals of a body hold.
fn body_holds(body: &[BodyLit], flags: &[bool], values: &[i32]) -> bool
    requires flags { 0 < length flags.now }
    requires body { AllByRecursion (IsReadable (length flags.now - 1) (length values.now)) body.now }
    requires values { AllByRecursion IsModest values.now }
    ensures { result ≡ list_all (literal_test (world_by flags.now values.now)) body.now }
{
    for literal in body {
        if !literal_holds(literal, flags, values) {
            return false;
        }
    }
    true
}

// Whether a head holds.
fn head_holds(
    alloc: Global,
    head: &GroundHead,
    flags: &[bool],
    values: &[i32],
    seen: &mut [bool],
) -> Result<bool, Memory>
    requires flags { 0 < length flags.now }
    requires head { IsReadableHead (length flags.now - 1) (length values.now) head.now }
    requires values { AllByRecursion IsModest values.now }
    requires seen { length seen.old ≡ length flags.now }
    requires clear { AreClear seen.old }
    ensures holds { IfOk result (λ holds. holds ≡ head_test (world_by flags.now values.now) head.now) }
    ensures clear { IfOk result (λ _. AreClear seen.new) }
{
    match head {
        GroundHead::Nothing => Ok(false),
        GroundHead::Atom(atom) => Ok(flags[*atom as usize]),
        GroundHead::Theory(theory) => theory_holds(alloc, theory, values),
        GroundHead::Choice(choice) => {
            let count = count_taken(choice.items.items(), flags, values, seen);
            Ok(allows(choice.left, count) && allows(choice.right, count))
        }
    }
}

// Whether a bound allows a count.
fn allows(bound: Option<Bound>, count: usize) -> bool
    ensures { result ≡ allows_test bound count }
{
    match bound {
        None => true,
        Some(bound) => compare(bound.rel, count as i128, i128::from(bound.value)),
    }
}

// How many different atoms a choice takes.
fn count_taken(items: &[ChoiceItem], flags: &[bool], values: &[i32], seen: &mut [bool]) -> usize
    requires flags { 0 < length flags.now }
    requires items { AllByRecursion (IsReadableItem (length flags.now - 1) (length values.now)) items.now }
    requires values { AllByRecursion IsModest values.now }
    requires seen { length seen.old ≡ length flags.now }
    requires clear { AreClear seen.old }
    ensures count { result ≡ length (chosen (world_by flags.now values.now) items.now) }
    ensures clear { AreClear seen.new }
{
    let count = mark_taken(items, flags, values, seen);
    clear_marks(items, seen);
    count
}

// Whether a choice takes an element.
fn is_taken(item: &ChoiceItem, flags: &[bool], values: &[i32]) -> bool
    requires flags { 0 < length flags.now }
    requires item { IsReadableItem (length flags.now - 1) (length values.now) item.now }
    requires values { AllByRecursion IsModest values.now }
    ensures { result ≡ taken_test (world_by flags.now values.now) item.now }
{
    flags[item.atom as usize] && body_holds(item.condition.items(), flags, values)
}

// Counts the different atoms that a choice takes, and marks them.
fn mark_taken(items: &[ChoiceItem], flags: &[bool], values: &[i32], seen: &mut [bool]) -> usize
    requires flags { 0 < length flags.now }
    requires items { AllByRecursion (IsReadableItem (length flags.now - 1) (length values.now)) items.now }
    requires values { AllByRecursion IsModest values.now }
    requires seen { length seen.old ≡ length flags.now }
    requires clear { AreClear seen.old }
    ensures count { result ≡ length (chosen (world_by flags.now values.now) items.now) }
    ensures marks { (a : ℕ) → slice_index_or seen.new a false ≡ has_atom (chosen (world_by flags.now values.now) items.now) a }
{
    let mut count = 0;
    let mut at = items.len();
    while at > 0 {
        at -= 1;
        let item = &items[at];
        let atom = item.atom as usize;
        if is_taken(item, flags, values) && !seen[atom] {
            seen[atom] = true;
            count += 1;
        }
    }
    count
}

// Takes the marks of a choice's atoms away.
fn clear_marks(items: &[ChoiceItem], seen: &mut [bool])
    requires items { AllByRecursion (λ item. item.atom < length seen.old) items.now }
    requires marks { (a : ℕ) → slice_index_or seen.old a false ≡ true → has_atom (map (λ item. item.atom) items.now) a ≡ true }
    ensures { AreClear seen.new }
{
    for item in items {
        seen[item.atom as usize] = false;
    }
}
