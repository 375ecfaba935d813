// Sums and the objective beyond their bounds.
ghost use Rattle.std.specs.Prelude.{◌≡◌, ◌<◌, ◌^◌, length, Some};
ghost use Rattle.literals.specs.Nogoods.{Rises};
ghost use Rattle.linear_normal.specs.Steps as spec;
ghost use Rattle.linear_normal.specs.declared.constraint.Constraint.TheVariants as c;
ghost use Rattle.step_rules.specs.inner.Sizes.{IsSized};

use crate::sums::{greatest_sum, least_sum, least_value};
use linear_normal::{Constraint, Item, Numbered};
use literals::{Lit, has_sorted};
use symbols::Ends;

// Whether the sum is listed to be at most the bound and can't be, or not to be and must be.
fn exceeds(ends: Ends, lits: &[Lit], number: u32, items: &[Item], bound: i64) -> bool
    requires sorted { Rises lits.now }
    requires few { length items.now < 2 ^ 32 }
    ensures { result ≡ spec.is_sum ends lits.now number (Some (c.AtMost items.now bound)) }
{
    has_sorted(lits, Lit::Constraint(number, true))
        && i128::from(bound) < least_sum(ends, lits, items)
        || has_sorted(lits, Lit::Constraint(number, false))
            && greatest_sum(ends, lits, items) <= i128::from(bound)
}

// Whether the constraint is a sum that is listed against its bounds.
pub(crate) fn is_sum(ends: Ends, lits: &[Lit], number: u32, constraint: &Constraint) -> bool
    requires sorted { Rises lits.now }
    requires sized { IsSized constraint.now }
    ensures { result ≡ spec.is_sum ends lits.now number (Some constraint.now) }
{
    match constraint {
        Constraint::AtMost(items, bound) => exceeds(ends, lits, number, items.items(), *bound),
        _ => false,
    }
}

// Whether the least objective, its constant included, is no smaller than the last cost.
pub(crate) fn is_costly(ends: Ends, lits: &[Lit], numbered: &Numbered, cost: Option<i128>) -> bool
    requires sorted { Rises lits.now }
    requires few { length numbered.now.objective.pairs < 2 ^ 32 }
    ensures { result ≡ spec.is_costly ends lits.now numbered.now cost }
{
    match cost {
        Some(cost) => cost <= least_value(ends, lits, &numbered.objective),
        None => false,
    }
}
