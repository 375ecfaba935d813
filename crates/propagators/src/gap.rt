// The numbers of a set around one that it lacks.
ghost use Rattle.std.specs.Prelude.{◌≡◌, ◌≤◌, ◌<◌, true, false, ℤ, int_lt, length, get_or, IsTrue, IfSome, IfNone};
ghost use Rattle.std.specs.List.Sorted.{IsPartitionPoint};
ghost use Rattle.ground_model.specs.Intervals.{are_parted, lies_in};
ghost use Rattle.propagators.specs.inner.Gaps.{IsGap, IsEndBefore};

/// The greatest number of a set below one that it lacks, and the least above that.
#[derive(Clone, Copy, Debug)]
pub(crate) struct Gap {
    pub(crate) below: Option<i32>,
    pub(crate) above: Option<i32>,
}

// How many of the intervals end below the number.
fn count_below(intervals: &[(i32, i32)], k: i32) -> usize
    requires { IsTrue (are_parted intervals.now) }
    ensures bound { result ≤ length intervals.now }
    ensures parted { IsPartitionPoint (λ interval. int_lt interval.1 k ≡ true) (λ interval. int_lt interval.1 k ≡ false) intervals.now result }
{
    intervals.partition_point(|interval| interval.1 < k)
}

// Where the interval before this place ends, if there is one.
fn end_before(intervals: &[(i32, i32)], at: usize) -> Option<i32>
    requires { at ≤ length intervals.now }
    ensures none { IfNone result (at ≡ 0) }
    ensures some { IfSome result (λ end. IsEndBefore intervals.now at end) }
{
    if at == 0 {
        return None;
    }
    Some(intervals[at - 1].1)
}

// Where the interval at this place starts.
fn start_at(intervals: &[(i32, i32)], at: usize) -> i32
    requires { at < length intervals.now }
    ensures { (d : ℤ × ℤ) → result ≡ (get_or intervals.now at d).0 }
{
    intervals[at].0
}

// The gap in which the number lies, where so many of the intervals end below it.
fn gap_behind(intervals: &[(i32, i32)], k: i32, at: usize) -> Option<Gap>
    requires parted { IsTrue (are_parted intervals.now) }
    requires bound { at ≤ length intervals.now }
    requires point { IsPartitionPoint (λ interval. int_lt interval.1 k ≡ true) (λ interval. int_lt interval.1 k ≡ false) intervals.now at }
    ensures none { IfNone result (lies_in intervals.now k ≡ true) }
    ensures some { IfSome result (λ gap. IsGap intervals.now k gap) }
{
    let below = end_before(intervals, at);
    if at == intervals.len() {
        return Some(Gap { below, above: None });
    }
    let above = start_at(intervals, at);
    if above <= k {
        return None;
    }
    Some(Gap {
        below,
        above: Some(above),
    })
}

/// The gap of the set in which the number lies, or nothing where the number is in the set.
///
/// O(log n) for n intervals.
pub(crate) fn gap_at(intervals: &[(i32, i32)], k: i32) -> Option<Gap>
    requires { IsTrue (are_parted intervals.now) }
    ensures none { IfNone result (lies_in intervals.now k ≡ true) }
    ensures some { IfSome result (λ gap. IsGap intervals.now k gap) }
{
    gap_behind(intervals, k, count_below(intervals, k))
}
