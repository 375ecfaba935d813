// One rule judged.
ghost use Rattle.std.specs.Prelude.{◌≡◌, ◌↔◌, [], List, IsTrue, IfOk};
ghost use Rattle.std.specs.List.{AllZip};
ghost use Rattle.syntax_tree.specs.declared.rule.Rule.{Rule as WrittenRule};
ghost use Rattle.rewriting.specs.Rewritten.{rewritten};
ghost use Rattle.rewriting.specs.Order.{order_of};
ghost use Rattle.program_meaning.specs.Read.{ReadRule};
ghost use Rattle.predicate_order.specs.Ways.{NamedWay, blocking_ways, step_ways};
ghost use Rattle.predicate_order.specs.Judged.{AreWays, Judges};
ghost use Rattle.safety_meaning.specs.Failures.{HasNoUnsafe};
ghost use Rattle.program_meaning.specs.Predicates.{HasDomainConditions};
ghost use Rattle.safety_meaning.specs.Program.{rule_of};
ghost use Rattle.safety.specs.inner.Rules.{ComesFrom, IsTwin, IsVerdict};

use crate::conditions::first_no_domain;
use crate::failure::Failure;
use crate::variables::first_unsafe;
use predicate_order::{Ways, is_turning};
use rewriting::Sight;
use std::alloc::Global;
use symbols::Memory;
use syntax_tree::Rule;

// What a rule fails by, if it fails.
pub(crate) fn judge(
    alloc: Global,
    ways: &Ways,
    flags: &[bool],
    steps: &mut Ways,
    rule: &Rule,
    order: &[u32],
    sights: &[Sight],
) -> Result<Option<Failure>, Memory>
    requires { (named : List NamedWay) × AreWays named steps.old }
    ensures verdict { IfOk result (λ found. (bare rules : List ReadRule) (old : WrittenRule) → Judges ways.now.table.keys flags.now (blocking_ways bare) → AreWays (step_ways bare) steps.old → AllZip IsTwin bare rules → ComesFrom rule.now order.now sights.now old → IsVerdict rules old found) }
    ensures kept { (named : List NamedWay) → AreWays named steps.old → AreWays named steps.new }
{
    match first_unsafe(alloc, rule, order, sights)? {
        Some(place) => Ok(Some(Failure::UnsafeVariable(place))),
        None => judge_conditions(alloc, ways, flags, steps, rule, order),
    }
}

// The same, where no variable is unsafe.
fn judge_conditions(
    alloc: Global,
    ways: &Ways,
    flags: &[bool],
    steps: &mut Ways,
    rule: &Rule,
    order: &[u32],
) -> Result<Option<Failure>, Memory>
    requires { (named : List NamedWay) × AreWays named steps.old }
    ensures verdict { IfOk result (λ found. (bare rules : List ReadRule) (old : WrittenRule) → Judges ways.now.table.keys flags.now (blocking_ways bare) → AreWays (step_ways bare) steps.old → AllZip IsTwin bare rules → rule.now ≡ rewritten old → order.now ≡ order_of old → HasNoUnsafe old → IsVerdict rules old found) }
    ensures kept { (named : List NamedWay) → AreWays named steps.old → AreWays named steps.new }
{
    match first_no_domain(alloc, ways, flags, rule)? {
        Some(place) => Ok(Some(Failure::NoDomainAtom(place))),
        None => judge_recursion(alloc, steps, rule, order),
    }
}

// The same, where the atoms in conditions are of domain predicates.
fn judge_recursion(
    alloc: Global,
    steps: &mut Ways,
    rule: &Rule,
    order: &[u32],
) -> Result<Option<Failure>, Memory>
    requires { (named : List NamedWay) × AreWays named steps.old }
    ensures verdict { IfOk result (λ found. (bare rules : List ReadRule) (old : WrittenRule) → AreWays (step_ways bare) steps.old → AllZip IsTwin bare rules → rule.now ≡ rewritten old → order.now ≡ order_of old → HasNoUnsafe old → HasDomainConditions rules (rule_of old) → IsVerdict rules old found) }
    ensures kept { (named : List NamedWay) → AreWays named steps.old → AreWays named steps.new }
{
    if is_empty(order) {
        return Ok(None);
    }
    if is_turning(alloc, rule, steps)? {
        return Ok(Some(Failure::RecursiveRule));
    }
    Ok(None)
}

fn is_empty(order: &[u32]) -> bool
    ensures { IsTrue result ↔ (order.now ≡ []) }
{
    order.is_empty()
}
