// The first unsafe variable of a rule.
ghost use Rattle.std.specs.Prelude.{◌≡◌, IfOk};
ghost use Rattle.std.specs.List.{list_any};
ghost use Rattle.syntax_tree.specs.declared.rule.Rule.{Rule as WrittenRule};
ghost use Rattle.definite_rules.specs.Least.{flag_at};
ghost use Rattle.rewriting.specs.Order.{is_interval_sight};
ghost use Rattle.safety.specs.inner.Rules.{ComesFrom, IsFirst, is_told, IsUnsafeAnswer};

use rewriting::Sight;
use std::alloc::Global;
use symbols::Memory;
use syntax_tree::Rule;
use variable_safety::unsafe_variables;

// The first unsafe variable of a rule by its place in order, those made for intervals passed over.
pub(crate) fn first_unsafe(
    alloc: Global,
    rule: &Rule,
    order: &[u32],
    sights: &[Sight],
) -> Result<Option<usize>, Memory>
    ensures { IfOk result (λ found. (old : WrittenRule) → ComesFrom rule.now order.now sights.now old → IsUnsafeAnswer old found) }
{
    let flags = unsafe_variables(alloc, rule, order)?;
    let found = first_told(order, flags.items(), sights);
    Ok(found)
}

fn first_told(order: &[u32], flags: &[bool], sights: &[Sight]) -> Option<usize>
    ensures { IsFirst (is_told flags.now sights.now) order.now result }
{
    for place in 0..order.len() {
        if tells(order[place], flags, sights) {
            return Some(place);
        }
    }
    None
}

// Whether a variable has its flag and was not made for an interval.
fn tells(number: u32, flags: &[bool], sights: &[Sight]) -> bool
    ensures { result ≡ is_told flags.now sights.now number }
{
    is_flagged(flags, number) && !is_interval(number, sights)
}

fn is_flagged(flags: &[bool], number: u32) -> bool
    ensures { result ≡ flag_at flags.now number }
{
    match flags.get(number as usize) {
        Some(flag) => *flag,
        None => false,
    }
}

fn is_interval(number: u32, sights: &[Sight]) -> bool
    ensures { result ≡ list_any (is_interval_sight number) sights.now }
{
    for sight in sights {
        if is_interval_at(number, *sight) {
            return true;
        }
    }
    false
}

fn is_interval_at(number: u32, sight: Sight) -> bool
    ensures { result ≡ is_interval_sight number sight }
{
    match sight {
        Sight::Variable(_) => false,
        Sight::Anonymous(_) => false,
        Sight::Interval(other) => other == number,
        Sight::Atom => false,
    }
}
