//! How much the intervals within two ends occupy.
ghost use Rattle.std.specs.Prelude.{◌≡◌, ◌+◌, ◌-◌, ◌*◌, ◌≤◌, ◌≤ℤ◌, ◌+ℤ◌, pos, length, drop, All};
ghost use Rattle.lane_kernels.specs.Columns.{within_load, load_of_one, IsEnd, IsDuration};

use std::simd::prelude::*;

/// The duration where the interval lies within the ends, else none.
#[inline(always)]
fn load_place(low: i64, high: i64, duration: i64, a: i64, b: i64) -> i64
    requires high { IsEnd high }
    requires duration { IsDuration duration }
    ensures { result ≡ load_of_one a b low high duration }
{
    if a <= low && high + duration <= b {
        duration
    } else {
        0
    }
}

/// The durations together of those of the four intervals from `place` on that lie within the ends.
#[inline(always)]
fn load_four(lows: &[i64], highs: &[i64], durations: &[i64], place: usize, a: i64, b: i64) -> i64
    requires lows { place + 4 ≤ length lows.now }
    requires highs { place + 4 ≤ length highs.now }
    requires durations { place + 4 ≤ length durations.now }
    requires ends { All IsEnd highs.now }
    requires lengths { All IsDuration durations.now }
    ensures least { pos 0 ≤ℤ result }
    ensures most { result ≤ℤ pos (4 * 2147483647) }
    ensures from_here { within_load a b (drop place lows.now) (drop place highs.now) (drop place durations.now)
        ≡ result +ℤ within_load a b (drop (place + 4) lows.now) (drop (place + 4) highs.now) (drop (place + 4) durations.now) }
{
    let low = [
        lows[place],
        lows[place + 1],
        lows[place + 2],
        lows[place + 3],
    ];
    let high = [
        highs[place],
        highs[place + 1],
        highs[place + 2],
        highs[place + 3],
    ];
    let duration = [
        durations[place],
        durations[place + 1],
        durations[place + 2],
        durations[place + 3],
    ];
    let occupied = i64x4::from_array(duration);
    let begins = i64x4::from_array(low).simd_ge(i64x4::splat(a));
    let ends = (i64x4::from_array(high) + occupied).simd_le(i64x4::splat(b));
    (begins & ends)
        .select(occupied, i64x4::splat(0))
        .reduce_sum()
}

/// The durations together of the intervals from `start` on that lie within the ends, one by one.
fn load_rest(lows: &[i64], highs: &[i64], durations: &[i64], start: usize, a: i64, b: i64) -> i64
    requires highs { length lows.now ≡ length highs.now }
    requires durations { length lows.now ≡ length durations.now }
    requires start { start ≤ length lows.now }
    requires places { length lows.now ≤ 65536 }
    requires ends { All IsEnd highs.now }
    requires lengths { All IsDuration durations.now }
    ensures least { pos 0 ≤ℤ result }
    ensures most { result ≤ℤ pos ((length lows.now - start) * 2147483647) }
    ensures value { result ≡ within_load a b (drop start lows.now) (drop start highs.now) (drop start durations.now) }
{
    let mut load = 0;
    for place in start..lows.len() {
        load += load_place(lows[place], highs[place], durations[place], a, b);
    }
    load
}

/// The durations together of the places that begin at `a` or later and, after their duration, end by `b`.
pub fn load_within(lows: &[i64], highs: &[i64], durations: &[i64], a: i64, b: i64) -> i64
    requires highs { length lows.now ≡ length highs.now }
    requires durations { length lows.now ≡ length durations.now }
    requires places { length lows.now ≤ 65536 }
    requires ends { All IsEnd highs.now }
    requires lengths { All IsDuration durations.now }
    ensures { result ≡ within_load a b lows.now highs.now durations.now }
{
    let mut load = 0;
    let mut place = 0;
    while lows.len() - place >= 4 {
        load += load_four(lows, highs, durations, place, a, b);
        place += 4;
    }
    load + load_rest(lows, highs, durations, place, a, b)
}
