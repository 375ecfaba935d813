// Variables for which no number is left.
ghost use Rattle.std.specs.Prelude.{◌≡◌, Some};
ghost use Rattle.literals.specs.Nogoods.{Rises};
ghost use Rattle.linear_normal.specs.Steps as spec;
ghost use Rattle.step_rules.specs.inner.Holes as inner;

use crate::bounds::{high, low};
use crate::named::is_one_of;
use linear_normal::Constraint;
use literals::{Lit, has_sorted};
use symbols::Ends;

// Whether no number of the intervals lies between.
fn none_between(low: i32, high: i32, intervals: &[(i32, i32)]) -> bool
    ensures { result ≡ spec.none_between low high intervals.now }
{
    intervals
        .iter()
        .all(|(first, last)| high < low || *last < low || high < *first)
}

// Whether the constraint is a domain, listed true, none of whose numbers lies within the variable's bounds.
pub(crate) fn is_hole(ends: Ends, lits: &[Lit], number: u32, constraint: &Constraint) -> bool
    requires sorted { Rises lits.now }
    ensures { result ≡ spec.is_hole ends lits.now number (Some constraint.now) }
{
    match constraint {
        Constraint::Domain(x, set) => {
            has_sorted(lits, Lit::Constraint(number, true))
                && none_between(
                    low(ends, lits, *x),
                    high(ends, lits, *x),
                    set.intervals.items(),
                )
        }
        _ => false,
    }
}

// Whether the literal bounds one of so many variables, for which the bounds leave no number.
fn leaves_none(ends: Ends, lits: &[Lit], variables: usize, lit: Lit) -> bool
    requires sorted { Rises lits.now }
    ensures { result ≡ inner.leaves_none ends lits.now variables lit }
{
    match lit {
        Lit::AtMost(x, _) | Lit::AtLeast(x, _) => {
            is_one_of(variables, x) && high(ends, lits, x) < low(ends, lits, x)
        }
        _ => false,
    }
}

// Whether some variable's bounds leave no number. Only those that a literal bounds can have none.
#[tactic(auto, using(crate::proofs::BoundLemmas::empty_is))]
pub(crate) fn is_empty_range(ends: Ends, lits: &[Lit], variables: usize) -> bool
    requires sorted { Rises lits.now }
    ensures { result ≡ spec.is_empty_range ends lits.now variables }
{
    for lit in lits {
        if leaves_none(ends, lits, variables, *lit) {
            return true;
        }
    }
    false
}
