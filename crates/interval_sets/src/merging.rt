// Ranges joined to intervals.
ghost use Rattle.std.specs.Prelude.{◌≡◌, ◌≤◌, ◌++◌, false, int_lt, None, Some, length, IfOk, OnOk};
ghost use Rattle.program_meaning.specs.Ascending.{Ascends};
ghost use Rattle.interval_sets.specs.Ranges.{range_cmp, HasIntegersOf};
ghost use Rattle.interval_sets.specs.inner.Joins.{joined, those, touches, greater_of, finished_by, growing_by};

use ground_model::IntSet;
use std::alloc::Global;
use symbols::{Listed, Memory};

// What becomes of a range: the interval that it finishes, and the one that may still grow.
#[derive(Clone, Copy)]
struct Step {
    finished: Option<(i32, i32)>,
    growing: Option<(i32, i32)>,
}

/// The integers between the ends of some range, as a set; linear in the ranges.
pub fn set_of(alloc: Global, ranges: &[(i32, i32)]) -> Result<IntSet, Memory>
    requires { Ascends range_cmp ranges.now }
    ensures integers { IfOk result (λ set. HasIntegersOf ranges.now set.intervals) }
    ensures few { IfOk result (λ set. length set.intervals ≤ length ranges.now) }
{
    match intervals_of(alloc, ranges) {
        Err(memory) => Err(memory),
        Ok(intervals) => Ok(IntSet { intervals }),
    }
}

fn intervals_of(alloc: Global, ranges: &[(i32, i32)]) -> Result<Listed<(i32, i32)>, Memory>
    ensures { IfOk result (λ intervals. intervals ≡ joined None ranges.now) }
{
    let mut intervals = Listed::new(alloc);
    let mut growing = None;
    for place in 0..ranges.len() {
        let step = with_range(growing, ranges[place]);
        push_those(&mut intervals, step.finished)?;
        growing = step.growing;
    }
    push_those(&mut intervals, growing)?;
    Ok(intervals)
}

fn push_those(intervals: &mut Listed<(i32, i32)>, more: Option<(i32, i32)>) -> Result<(), Memory>
    ensures { OnOk result (intervals.new ≡ intervals.old ++ those more) }
{
    match more {
        Some(interval) => intervals.push(interval),
        None => Ok(()),
    }
}

// One range more.
fn with_range(growing: Option<(i32, i32)>, range: (i32, i32)) -> Step
    ensures finished { result.finished ≡ finished_by growing range }
    ensures growing { result.growing ≡ growing_by growing range }
{
    if range.1 < range.0 {
        return Step {
            finished: None,
            growing,
        };
    }
    match growing {
        None => Step {
            finished: None,
            growing: Some(range),
        },
        Some(interval) => with_full_range(interval, range),
    }
}

fn with_full_range(interval: (i32, i32), range: (i32, i32)) -> Step
    requires { int_lt range.1 range.0 ≡ false }
    ensures finished { result.finished ≡ finished_by (Some interval) range }
    ensures growing { result.growing ≡ growing_by (Some interval) range }
{
    if meets(interval.1, range.0) {
        return Step {
            finished: None,
            growing: Some((interval.0, greater(interval.1, range.1))),
        };
    }
    Step {
        finished: Some(interval),
        growing: Some(range),
    }
}

// Whether no integer lies between an end and a beginning.
fn meets(end: i32, begin: i32) -> bool
    ensures { result ≡ touches end begin }
{
    begin <= end || begin - 1 == end
}

fn greater(one: i32, other: i32) -> i32
    ensures { result ≡ greater_of one other }
{
    if one < other { other } else { one }
}
