// Distinct constraints with more tuples than numbers.
ghost use Rattle.std.specs.Prelude.{◌≡◌, ◌≤◌, ◌-ℤ◌, ◌+ℤ◌, pos, length, Some};
ghost use Rattle.literals.specs.Nogoods.{Rises};
ghost use Rattle.std.specs.List.{AllByRecursion, filter};
ghost use Rattle.linear_normal.specs.Bounds.{bounds_named};
ghost use Rattle.linear_normal.specs.Steps as spec;
ghost use Rattle.linear_normal.specs.declared.constraint.Constraint.TheVariants as c;
ghost use Rattle.step_rules.specs.inner.Sizes.{IsShort, IsSized};
ghost use Rattle.step_rules.specs.inner.Counts.{count_of, one_if};

use crate::sums::{greatest_value, least_value};
use crate::window::Window;
use ground_model::Place;
use linear_normal::Constraint;
use literals::{Lit, has_sorted};
use symbols::Ends;

// Whether the first place lies from a to b.
fn is_between(ends: Ends, lits: &[Lit], window: Window, place: &Place) -> bool
    requires sorted { Rises lits.now }
    requires short { IsShort place.now }
    ensures { result ≡ spec.is_between (bounds_named ends lits.now) window.from window.to place.now }
{
    i128::from(window.from) <= least_value(ends, lits, &place.linear)
        && greatest_value(ends, lits, &place.linear) <= i128::from(window.to)
}

// Whether it does, as a count.
fn one_between(ends: Ends, lits: &[Lit], window: Window, place: &Place) -> usize
    requires sorted { Rises lits.now }
    requires short { IsShort place.now }
    ensures value { result ≡ one_if (spec.is_between (bounds_named ends lits.now) window.from window.to place.now) }
    ensures one { result ≤ 1 }
{
    if is_between(ends, lits, window, place) {
        1
    } else {
        0
    }
}

// How many first places lie in the window, counted one by one.
fn counted(ends: Ends, lits: &[Lit], window: Window, places: &[Place]) -> usize
    requires sorted { Rises lits.now }
    requires short { AllByRecursion IsShort places.now }
    ensures { result ≡ count_of (spec.is_between (bounds_named ends lits.now) window.from window.to) places.now }
{
    let mut count = 0;
    for place in places {
        count += one_between(ends, lits, window, place);
    }
    count
}

// How many numbers lie from a to b, where they are in order.
fn numbers_from(a: i64, b: i64) -> i128
    ensures { result ≡ (b -ℤ a) +ℤ pos 1 }
{
    i128::from(b) - i128::from(a) + 1
}

// A count as a number.
fn amount(count: usize) -> i128
    ensures { result ≡ pos count }
{
    count as i128
}

// How many first places lie in the window.
fn count_between(ends: Ends, lits: &[Lit], window: Window, places: &[Place]) -> usize
    requires sorted { Rises lits.now }
    requires short { AllByRecursion IsShort places.now }
    ensures { result ≡ length (filter (spec.is_between (bounds_named ends lits.now) window.from window.to) places.now) }
{
    counted(ends, lits, window, places)
}

// Whether more first places lie from a to b than there are numbers.
fn has_overfull(ends: Ends, lits: &[Lit], number: u32, a: i64, b: i64, places: &[Place]) -> bool
    requires sorted { Rises lits.now }
    requires short { AllByRecursion IsShort places.now }
    ensures { result ≡ spec.is_overfull ends lits.now number a b (Some (c.Distinct places.now)) }
{
    has_sorted(lits, Lit::Constraint(number, true))
        && a <= b
        && numbers_from(a, b) < amount(count_between(ends, lits, Window { from: a, to: b }, places))
}

// Whether the constraint is a distinct one, listed true, with too many tuples from a to b.
pub(crate) fn is_overfull(
    ends: Ends,
    lits: &[Lit],
    number: u32,
    a: i64,
    b: i64,
    constraint: &Constraint,
) -> bool
    requires sorted { Rises lits.now }
    requires sized { IsSized constraint.now }
    ensures { result ≡ spec.is_overfull ends lits.now number a b (Some constraint.now) }
{
    match constraint {
        Constraint::Distinct(places) => has_overfull(ends, lits, number, a, b, places.items()),
        _ => false,
    }
}
