//! Rows of bits in words of 64, joined word by word.
ghost use Rattle.std.specs.Prelude.{◌≡◌, ◌+◌, ◌≤◌, length, bit_and, bit_or};
ghost use Rattle.std.specs.Simd.Lanes.{zip2, chunk, put_chunk};

use std::simd::prelude::*;

/// Keeps in the four words from `place` on the bits that the other row has too.
#[inline(always)]
fn and_four(into: &mut [u64], other: &[u64], place: usize)
    requires into { place + 4 ≤ length into.old }
    requires other { place + 4 ≤ length other.now }
    ensures { into.new ≡ put_chunk place into.old (zip2 bit_and (chunk place 4 into.old) (chunk place 4 other.now)) }
{
    let kept = u64x4::from_slice(&into[place..]) & u64x4::from_slice(&other[place..]);
    kept.copy_to_slice(&mut into[place..]);
}

/// Adds to the four words from `place` on the bits of the other row.
#[inline(always)]
fn or_four(into: &mut [u64], other: &[u64], place: usize)
    requires into { place + 4 ≤ length into.old }
    requires other { place + 4 ≤ length other.now }
    ensures { into.new ≡ put_chunk place into.old (zip2 bit_or (chunk place 4 into.old) (chunk place 4 other.now)) }
{
    let joined = u64x4::from_slice(&into[place..]) | u64x4::from_slice(&other[place..]);
    joined.copy_to_slice(&mut into[place..]);
}

/// Keeps in each word the bits that the other row has too.
pub fn and_into(into: &mut [u64], other: &[u64])
    requires { length into.old ≡ length other.now }
    ensures { into.new ≡ zip2 bit_and into.old other.now }
{
    let mut place = 0;
    while into.len() - place >= 4 {
        and_four(into, other, place);
        place += 4;
    }
    for rest in place..into.len() {
        into[rest] &= other[rest];
    }
}

/// Adds to each word the bits of the other row.
pub fn or_into(into: &mut [u64], other: &[u64])
    requires { length into.old ≡ length other.now }
    ensures { into.new ≡ zip2 bit_or into.old other.now }
{
    let mut place = 0;
    while into.len() - place >= 4 {
        or_four(into, other, place);
        place += 4;
    }
    for rest in place..into.len() {
        into[rest] |= other[rest];
    }
}
