// Whether theory heads hold.
ghost use Rattle.std.specs.Prelude.{◌≡◌, ◌+ℤ◌, int_lt, pos, cond, [], length, map, IfOk};
ghost use Rattle.std.specs.List.{AllByRecursion};
ghost use Rattle.ground_model.specs.Answers.{IsNumbered, value_at};
ghost use Rattle.ground_model.specs.Duties.{theory_holds as theory_test};
ghost use Rattle.ground_model.specs.Intervals.{lies_in};
ghost use Rattle.ground_model.specs.Sizes.{IsModest, AreSizedPlaces, IsReadableTheory};
ghost use Rattle.ground_model.specs.Spans.{differ_by_value, are_apart_spans, span_of, IsSizedSpan, AreAscending};
ghost use Rattle.ground_model.specs.Truth.{all_pairs, share as share_test};

use crate::linear::Place;
use crate::rule::TheoryHead;
use crate::value::{linear_value, relation_holds};
use std::alloc::Global;
use std::collections::HashSet;
use symbols::Memory;

// Whether a theory head holds.
#[tactic(auto, using(crate::proofs::SpanLemmas::distinct_spans, crate::proofs::SpanLemmas::disjoint_spans))]
pub(crate) fn theory_holds(
    alloc: Global,
    theory: &TheoryHead,
    values: &[i32],
) -> Result<bool, Memory>
    requires theory { IsReadableTheory (length values.now) theory.now }
    requires values { AllByRecursion IsModest values.now }
    ensures { IfOk result (λ holds. holds ≡ theory_test (value_at values.now) theory.now) }
{
    match theory {
        TheoryHead::Relation(relation) => Ok(relation_holds(relation, values)),
        TheoryHead::Domain(numbers, variable) => {
            let value = values[*variable as usize - 1];
            Ok(lies_within(numbers.intervals.items(), value))
        }
        TheoryHead::Distinct(places) => {
            let spans = spans_of(alloc, places.items(), values)?;
            all_differ(alloc, &spans)
        }
        TheoryHead::Disjoint(places) => {
            let spans = spans_of(alloc, places.items(), values)?;
            Ok(none_overlap(spans))
        }
    }
}

// Whether a number lies in one of the intervals.
fn lies_within(intervals: &[(i32, i32)], value: i32) -> bool
    ensures { result ≡ lies_in intervals.now value }
{
    intervals
        .iter()
        .any(|(low, high)| *low <= value && value <= *high)
}

// The value of each tuple's first place, with its duration.
fn spans_of(alloc: Global, places: &[Place], values: &[i32]) -> Result<Vec<(i128, i32)>, Memory>
    requires places { AreSizedPlaces (length values.now) places.now }
    requires values { AllByRecursion IsModest values.now }
    ensures spans { IfOk result (λ spans. spans.items ≡ map (span_of (value_at values.now)) places.now) }
    ensures sized { IfOk result (λ spans. AllByRecursion IsSizedSpan spans.items) }
{
    let mut spans = Vec::new(alloc);
    for place in places {
        let start = linear_value(&place.linear, values);
        spans.push((start, place.duration))?;
    }
    Ok(spans)
}

// Whether all starts differ, each looked up among the later ones.
fn all_differ(alloc: Global, spans: &[(i128, i32)]) -> Result<bool, Memory>
    requires { AllByRecursion IsSizedSpan spans.now }
    ensures { IfOk result (λ yes. yes ≡ all_pairs differ_by_value spans.now) }
{
    let mut later = HashSet::new(alloc);
    let mut at = spans.len();
    while at > 0 {
        at -= 1;
        let start = spans[at].0;
        if !later.insert(start)? {
            return Ok(false);
        }
    }
    Ok(true)
}

// Whether a span ends above a number.
fn ends_above(span: (i128, i32), number: i128) -> bool
    requires { IsSizedSpan span }
    ensures { result ≡ int_lt number (span.0 +ℤ span.1) }
{
    number < span.0 + i128::from(span.1)
}

// Whether two spans share an integer.
fn share(one: (i128, i32), other: (i128, i32)) -> bool
    requires one { IsSizedSpan one }
    requires other { IsSizedSpan other }
    ensures { result ≡ share_test one.0 one.1 other.0 other.1 }
{
    one.1 > 0 && other.1 > 0 && ends_above(other, one.0) && ends_above(one, other.0)
}

// Whether no two spans share an integer, found in the order of their starts.
fn none_overlap(spans: Vec<(i128, i32)>) -> bool
    requires { AllByRecursion IsSizedSpan spans.items }
    ensures { result ≡ all_pairs are_apart_spans spans.items }
{
    let mut sorted = spans;
    sorted.sort_unstable();
    follow_each_other(&sorted)
}

// Whether no two spans share an integer, where none starts before an earlier one.
fn follow_each_other(spans: &[(i128, i32)]) -> bool
    requires sized { AllByRecursion IsSizedSpan spans.now }
    requires ascending { AreAscending spans.now }
    ensures { result ≡ all_pairs are_apart_spans spans.now }
{
    let mut last = 0;
    for at in 1..spans.len() {
        if share(spans[last], spans[at]) {
            return false;
        }
        last = last_with_length(spans[at], last, at);
    }
    true
}

// The place of the last span that occupies something, given that of the last before it.
fn last_with_length(span: (i128, i32), last: usize, at: usize) -> usize
    ensures { result ≡ cond (int_lt (pos 0) span.1) at last }
{
    if span.1 > 0 { at } else { last }
}
