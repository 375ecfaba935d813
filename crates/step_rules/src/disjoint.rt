// Disjoint constraints with too much work, or with two tuples that must overlap.
ghost use Rattle.std.specs.Prelude.{◌≡◌, ◌≤◌, ◌^◌, ◌+◌, ◌-ℤ◌, ◌+ℤ◌, unsigned_abs, Some};
ghost use Rattle.literals.specs.Nogoods.{Rises};
ghost use Rattle.std.specs.List.{filter};
ghost use Rattle.linear_normal.specs.Bounds.{bounds_named};
ghost use Rattle.linear_normal.specs.Steps as spec;
ghost use Rattle.linear_normal.specs.Truth as truth;
ghost use Rattle.linear_normal.specs.declared.constraint.Constraint.TheVariants as c;
ghost use Rattle.step_rules.specs.inner.Sizes.{AreFew, IsShort, IsSized};
ghost use Rattle.step_rules.specs.inner.Counts.{work_if, work_in};

use crate::named::numbered_in;
use crate::sums::{greatest_value, least_value};
use crate::window::Window;
use ground_model::Place;
use linear_normal::Constraint;
use literals::{Lit, has_sorted};
use symbols::Ends;

// The end of a span that starts there.
fn end_of(start: i128, place: &Place) -> i128
    requires size { unsigned_abs start ≤ 2 ^ 126 + 2 ^ 63 }
    ensures { result ≡ start +ℤ place.now.duration }
{
    start + i128::from(place.duration)
}

// How long it is from a to b.
fn time_from(a: i64, b: i64) -> i128
    ensures { result ≡ b -ℤ a }
{
    i128::from(b) - i128::from(a)
}

// Whether the span starts at a or later and ends at b or earlier.
fn is_within_window(ends: Ends, lits: &[Lit], window: Window, place: &Place) -> bool
    requires sorted { Rises lits.now }
    requires short { IsShort place.now }
    ensures { result ≡ spec.is_within_window (bounds_named ends lits.now) window.from window.to place.now }
{
    i128::from(window.from) <= least_value(ends, lits, &place.linear)
        && end_of(greatest_value(ends, lits, &place.linear), place) <= i128::from(window.to)
}

// Its duration where it does, else 0.
fn work_of(ends: Ends, lits: &[Lit], window: Window, place: &Place) -> i128
    requires sorted { Rises lits.now }
    requires short { IsShort place.now }
    ensures value { result ≡ work_if (spec.is_within_window (bounds_named ends lits.now) window.from window.to place.now) place.now }
    ensures size { unsigned_abs result ≤ 2 ^ 31 }
{
    if is_within_window(ends, lits, window, place) {
        i128::from(place.duration)
    } else {
        0
    }
}

// The durations of the spans in the window together, one by one.
fn added(ends: Ends, lits: &[Lit], window: Window, places: &[Place]) -> i128
    requires sorted { Rises lits.now }
    requires few { AreFew places.now }
    ensures { result ≡ work_in (spec.is_within_window (bounds_named ends lits.now) window.from window.to) places.now }
{
    let mut work = 0;
    for place in places {
        work += work_of(ends, lits, window, place);
    }
    work
}

// The durations of the spans in the window together.
fn work_within(ends: Ends, lits: &[Lit], window: Window, places: &[Place]) -> i128
    requires sorted { Rises lits.now }
    requires few { AreFew places.now }
    ensures { result ≡ spec.total_duration (filter (spec.is_within_window (bounds_named ends lits.now) window.from window.to) places.now) }
{
    added(ends, lits, window, places)
}

// Whether the spans that lie from a to b are together longer than that.
fn has_overload(ends: Ends, lits: &[Lit], number: u32, a: i64, b: i64, places: &[Place]) -> bool
    requires sorted { Rises lits.now }
    requires few { AreFew places.now }
    ensures { result ≡ spec.is_overloaded ends lits.now number a b (Some (c.Disjoint places.now)) }
{
    has_sorted(lits, Lit::Constraint(number, true))
        && a < b
        && time_from(a, b) < work_within(ends, lits, Window { from: a, to: b }, places)
}

// Whether the constraint is a disjoint one, listed true, with too much work from a to b.
pub(crate) fn is_overloaded(
    ends: Ends,
    lits: &[Lit],
    number: u32,
    a: i64,
    b: i64,
    constraint: &Constraint,
) -> bool
    requires sorted { Rises lits.now }
    requires sized { IsSized constraint.now }
    ensures { result ≡ spec.is_overloaded ends lits.now number a b (Some constraint.now) }
{
    match constraint {
        Constraint::Disjoint(places) => has_overload(ends, lits, number, a, b, places.items()),
        _ => false,
    }
}

// Whether the first span cannot end before the second starts.
fn ends_late(ends: Ends, lits: &[Lit], first: &Place, second: &Place) -> bool
    requires sorted { Rises lits.now }
    requires first { IsShort first.now }
    requires second { IsShort second.now }
    ensures { result ≡ spec.ends_late (bounds_named ends lits.now) first.now second.now }
{
    greatest_value(ends, lits, &second.linear)
        < end_of(least_value(ends, lits, &first.linear), first)
}

// Whether both spans last, and neither can come first.
fn must_overlap(ends: Ends, lits: &[Lit], first: &Place, second: &Place) -> bool
    requires sorted { Rises lits.now }
    requires first { IsShort first.now }
    requires second { IsShort second.now }
    ensures { result ≡ spec.must_overlap (bounds_named ends lits.now) (Some first.now) (Some second.now) }
{
    0 < first.duration
        && 0 < second.duration
        && ends_late(ends, lits, first, second)
        && ends_late(ends, lits, second, first)
}

// Whether the places of these numbers must overlap.
#[tactic(auto, using(crate::proofs::StepLemmas::numbered_has))]
fn must_both(ends: Ends, lits: &[Lit], places: &[Place], i: u32, j: u32) -> bool
    requires sorted { Rises lits.now }
    requires few { AreFew places.now }
    ensures { result ≡ spec.must_overlap (bounds_named ends lits.now) (truth.numbered_in places.now i) (truth.numbered_in places.now j) }
{
    match numbered_in(places, i) {
        Some(first) => match numbered_in(places, j) {
            Some(second) => must_overlap(ends, lits, first, second),
            None => false,
        },
        None => false,
    }
}

// Whether two different tuples must overlap.
fn has_clash(ends: Ends, lits: &[Lit], number: u32, i: u32, j: u32, places: &[Place]) -> bool
    requires sorted { Rises lits.now }
    requires few { AreFew places.now }
    ensures { result ≡ spec.is_clash ends lits.now number i j (Some (c.Disjoint places.now)) }
{
    has_sorted(lits, Lit::Constraint(number, true)) && i != j && must_both(ends, lits, places, i, j)
}

// Whether the constraint is a disjoint one, listed true, two of whose tuples must overlap.
pub(crate) fn is_clash(
    ends: Ends,
    lits: &[Lit],
    number: u32,
    i: u32,
    j: u32,
    constraint: &Constraint,
) -> bool
    requires sorted { Rises lits.now }
    requires sized { IsSized constraint.now }
    ensures { result ≡ spec.is_clash ends lits.now number i j (Some constraint.now) }
{
    match constraint {
        Constraint::Disjoint(places) => has_clash(ends, lits, number, i, j, places.items()),
        _ => false,
    }
}
