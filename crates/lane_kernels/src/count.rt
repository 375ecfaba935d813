//! How many intervals lie within two ends.
ghost use Rattle.std.specs.Prelude.{◌≡◌, ◌+◌, ◌-◌, ◌≤◌, ◌+ℤ◌, ◌<ℤ◌, pos, length, drop};
ghost use Rattle.lane_kernels.specs.inner.Hits.{hits_of_two, AreHits};
ghost use Rattle.lane_kernels.specs.Columns.{within_count, count_of_one};

use std::simd::prelude::*;

/// One where the interval lies within the ends, else none.
#[inline(always)]
fn count_place(low: i64, high: i64, a: i64, b: i64) -> usize
    ensures { result ≡ count_of_one a b low high }
{
    if a <= low && high <= b { 1 } else { 0 }
}

/// In the lane of each of the two intervals from `place` on, one where it begins after `before` and ends
/// by `b`, else none.
///
/// Two lanes fill a register of 128 bits, so that no mask is packed and taken apart again, and a
/// comparison with what stands before `a` needs no copy of it.
#[inline(always)]
fn hits_of_two(lows: &[i64], highs: &[i64], place: usize, before: i64, b: i64) -> u64x2
    requires lows { place + 2 ≤ length lows.now }
    requires highs { place + 2 ≤ length highs.now }
    ensures { result ≡ hits_of_two (before +ℤ pos 1) b lows.now highs.now place }
{
    let low = [lows[place], lows[place + 1]];
    let high = [highs[place], highs[place + 1]];
    let begins = i64x2::from_array(low).simd_gt(i64x2::splat(before));
    let ends = i64x2::from_array(high).simd_le(i64x2::splat(b));
    (begins & ends).select(u64x2::splat(1), u64x2::splat(0))
}

/// In two lanes, how many of the four intervals from `place` on begin after `before` and end by `b`.
#[inline(always)]
fn hits_of_four(lows: &[i64], highs: &[i64], place: usize, before: i64, b: i64) -> u64x2
    requires lows { place + 4 ≤ length lows.now }
    requires highs { place + 4 ≤ length highs.now }
    ensures { AreHits (before +ℤ pos 1) b lows.now highs.now place (place + 4) result }
{
    hits_of_two(lows, highs, place, before, b) + hits_of_two(lows, highs, place + 2, before, b)
}

/// In two lanes, how many of the eight intervals from `place` on begin after `before` and end by `b`.
#[inline(always)]
fn hits_of_eight(lows: &[i64], highs: &[i64], place: usize, before: i64, b: i64) -> u64x2
    requires lows { place + 8 ≤ length lows.now }
    requires highs { place + 8 ≤ length highs.now }
    ensures { AreHits (before +ℤ pos 1) b lows.now highs.now place (place + 8) result }
{
    hits_of_four(lows, highs, place, before, b) + hits_of_four(lows, highs, place + 4, before, b)
}

/// In two lanes, how many of the sixteen intervals from `place` on begin after `before` and end by `b`.
#[inline(always)]
fn hits_of_sixteen(lows: &[i64], highs: &[i64], place: usize, before: i64, b: i64) -> u64x2
    requires lows { place + 16 ≤ length lows.now }
    requires highs { place + 16 ≤ length highs.now }
    ensures { AreHits (before +ℤ pos 1) b lows.now highs.now place (place + 16) result }
{
    hits_of_eight(lows, highs, place, before, b) + hits_of_eight(lows, highs, place + 8, before, b)
}

/// How many of the intervals from `start` on lie within the ends, one by one.
fn count_rest(lows: &[i64], highs: &[i64], start: usize, a: i64, b: i64) -> usize
    requires lengths { length lows.now ≡ length highs.now }
    requires start { start ≤ length lows.now }
    ensures most { result ≤ length lows.now - start }
    ensures value { result ≡ within_count a b (drop start lows.now) (drop start highs.now) }
{
    let mut count = 0;
    for place in start..lows.len() {
        count += count_place(lows[place], highs[place], a, b);
    }
    count
}

/// How many places hold an interval that begins after `before` and ends by `b`.
fn count_after(lows: &[i64], highs: &[i64], before: i64, b: i64) -> usize
    requires lengths { length lows.now ≡ length highs.now }
    requires below { before <ℤ pos 9223372036854775807 }
    ensures { result ≡ within_count (before +ℤ pos 1) b lows.now highs.now }
{
    let mut hits = u64x2::splat(0);
    let mut place = 0;
    while lows.len() - place >= 16 {
        hits = hits + hits_of_sixteen(lows, highs, place, before, b);
        place += 16;
    }
    hits.reduce_sum() as usize + count_rest(lows, highs, place, before + 1, b)
}

/// How many places hold an interval that begins at `a` or later and ends by `b`.
pub fn count_within(lows: &[i64], highs: &[i64], a: i64, b: i64) -> usize
    requires { length lows.now ≡ length highs.now }
    ensures { result ≡ within_count a b lows.now highs.now }
{
    match a.checked_sub(1) {
        Some(before) => count_after(lows, highs, before, b),
        None => count_rest(lows, highs, 0, a, b),
    }
}
