//! Two columns of intervals, and the plain loop over them.
ghost use Rattle.std.specs.Prelude.{◌≡◌, IfOk, length, vec_len};
ghost use Rattle.lane_kernels.specs.Columns.{within_count};
ghost use Rattle.speed_trial.specs.Rounds.{count_of_round, count_of_rounds};

use lane_kernels::count_within;
use std::alloc::{AllocError, Global};

/// Both columns have so many places.
const PLACES: u32 = 65_536;

/// A column of the values from `first` on, each once and in no order that a processor could foresee.
pub(crate) fn column(alloc: Global, first: u8) -> Result<Vec<i64>, AllocError>
    ensures { IfOk result (λ v. vec_len v ≡ 65536) }
{
    let mut values = Vec::new(alloc);
    for place in 0..PLACES {
        values.push(i64::from(place.wrapping_mul(40_503) % PLACES) + i64::from(first))?;
    }
    Ok(values)
}

/// How many intervals lie within the ends, by a plain loop.
pub(crate) fn plain_count(lows: &[i64], highs: &[i64], a: i64, b: i64) -> usize
    requires { length lows.now ≡ length highs.now }
    ensures { result ≡ within_count a b lows.now highs.now }
{
    let mut count = 0;
    for place in 0..lows.len() {
        if a <= lows[place] && highs[place] <= b {
            count += 1;
        }
    }
    count
}

/// How many intervals lie within the ends of a round, by the kernel or by the plain loop.
#[inline(always)]
fn round_count(lows: &[i64], highs: &[i64], by_lanes: bool, round: u32) -> usize
    requires { length lows.now ≡ length highs.now }
    ensures { result ≡ count_of_round lows.now highs.now round }
{
    let a = i64::from(20_000 + round % 16);
    let b = i64::from(50_000 - round % 16);
    if by_lanes {
        count_within(lows, highs, a, b)
    } else {
        plain_count(lows, highs, a, b)
    }
}

/// The counts of so many rounds together, whichever way they are counted.
pub(crate) fn all_counts(lows: &[i64], highs: &[i64], by_lanes: bool, rounds: u32) -> usize
    requires { length lows.now ≡ length highs.now }
    ensures { result ≡ count_of_rounds lows.now highs.now rounds }
{
    let mut total: usize = 0;
    for round in 0..rounds {
        total = total.wrapping_add(round_count(lows, highs, by_lanes, round));
    }
    total
}
