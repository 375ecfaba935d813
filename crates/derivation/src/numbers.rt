// Numbers, as the bytes from here on begin with them.
ghost use Rattle.std.specs.Prelude.{◌≡◌, ◌^◌, drop, slice_index, option_map, nat_le, pos, neg_ℤ, Some, None, if◌then◌else◌};
ghost use Rattle.derivation.specs.Reading.{digits_from, number_at, small_at, wide_at, integer_at, value_at, window_end_at};

// The tenth part of 2^127: a digit behind a number up to this one still fits 128 bits.
const TENTH: u128 = 17_014_118_346_046_923_173_168_730_371_588_410_572;

// A digit behind a number below this one fits 64 bits.
const SHORT: u64 = 1_844_674_407_370_955_161;

// The byte at a place, 0 behind the last.
#[inline]
pub(crate) fn byte_at(bytes: &[u8], place: usize) -> u8
    ensures { result ≡ slice_index bytes.now place }
{
    if place < bytes.len() { bytes[place] } else { 0 }
}

// The bytes without the first ones.
#[inline]
pub(crate) fn skip(bytes: &[u8], count: usize) -> &[u8]
    ensures { result.now ≡ drop count bytes.now }
{
    if count <= bytes.len() {
        &bytes[count..]
    } else {
        &bytes[bytes.len()..]
    }
}

// The number that the digits here write, and the bytes behind it.
#[tactic(auto, unfolding(crate::specs::Reading::number_at))]
pub(crate) fn number(bytes: &[u8]) -> Option<(u128, &[u8])>
    ensures { option_map (λ x. (x.0, x.1.now)) result ≡ number_at bytes.now }
{
    if byte_at(bytes, 0).is_ascii_digit() {
        digits(bytes)
    } else {
        None
    }
}

// The number that the digits here write, if any, and the bytes behind it.
#[tactic(auto, unfolding(crate::specs::Reading::digits_from))]
fn digits(bytes: &[u8]) -> Option<(u128, &[u8])>
    ensures { option_map (λ x. (x.0, x.1.now)) result ≡ digits_from 0 bytes.now }
{
    let mut number: u64 = 0;
    let mut place = 0;
    'digits: while place < bytes.len() {
        let byte = bytes[place];
        if !byte.is_ascii_digit() {
            return Some((u128::from(number), &bytes[place..]));
        }
        if number >= SHORT {
            return more_digits(u128::from(number), &bytes[place..]);
        }
        number = number * 10 + u64::from(byte - b'0');
        place += 1;
    }
    Some((u128::from(number), &bytes[place..]))
}

// The number that the digits here write behind those of a number, if any, and the bytes behind it.
#[tactic(auto, unfolding(crate::specs::Reading::digits_from))]
fn more_digits(front: u128, bytes: &[u8]) -> Option<(u128, &[u8])>
    ensures { option_map (λ x. (x.0, x.1.now)) result ≡ digits_from front bytes.now }
{
    let mut number = front;
    let mut place = 0;
    'digits: while place < bytes.len() {
        let byte = bytes[place];
        if !byte.is_ascii_digit() {
            return Some((number, &bytes[place..]));
        }
        if number > TENTH {
            return None;
        }
        number = number * 10 + (byte - b'0') as u128;
        place += 1;
    }
    Some((number, &bytes[place..]))
}

// A number of 32 bits, and the bytes behind it.
#[tactic(auto, unfolding(crate::specs::Reading::small_at))]
pub(crate) fn small(bytes: &[u8]) -> Option<(u32, &[u8])>
    ensures { option_map (λ x. (x.0, x.1.now)) result ≡ small_at bytes.now }
{
    let (number, rest) = number(bytes)?;
    if number < 1 << 32 {
        Some((number as u32, rest))
    } else {
        None
    }
}

// A number of 64 bits, and the bytes behind it.
#[tactic(auto, unfolding(crate::specs::Reading::wide_at))]
pub(crate) fn wide(bytes: &[u8]) -> Option<(u64, &[u8])>
    ensures { option_map (λ x. (x.0, x.1.now)) result ≡ wide_at bytes.now }
{
    let (number, rest) = number(bytes)?;
    if number < 1 << 64 {
        Some((number as u64, rest))
    } else {
        None
    }
}

// The opposite of a number, where it fits.
fn negative(number: u128) -> Option<i128>
    ensures { result ≡ (if nat_le number (2 ^ 127) then Some (neg_ℤ (pos number)) else None) }
{
    if number < 1 << 127 {
        return Some(-(number as i128));
    }
    if number == 1 << 127 {
        return Some(i128::MIN);
    }
    None
}

// An integer of 128 bits, and the bytes behind it.
#[tactic(auto, unfolding(crate::specs::Reading::integer_at))]
pub(crate) fn integer(bytes: &[u8]) -> Option<(i128, &[u8])>
    ensures { option_map (λ x. (x.0, x.1.now)) result ≡ integer_at bytes.now }
{
    if byte_at(bytes, 0) == b'-' {
        let (number, rest) = number(skip(bytes, 1))?;
        let opposite = negative(number)?;
        return Some((opposite, rest));
    }
    let (number, rest) = number(bytes)?;
    if number < 1 << 127 {
        Some((number as i128, rest))
    } else {
        None
    }
}

// An integer of 32 bits, and the bytes behind it.
#[tactic(auto, unfolding(crate::specs::Reading::value_at))]
pub(crate) fn value(bytes: &[u8]) -> Option<(i32, &[u8])>
    ensures { option_map (λ x. (x.0, x.1.now)) result ≡ value_at bytes.now }
{
    let (number, rest) = integer(bytes)?;
    if -2_147_483_648 <= number && number <= 2_147_483_647 {
        Some((number as i32, rest))
    } else {
        None
    }
}

// An end of a window, and the bytes behind it.
#[tactic(auto, unfolding(crate::specs::Reading::window_end_at))]
pub(crate) fn window_end(bytes: &[u8]) -> Option<(i64, &[u8])>
    ensures { option_map (λ x. (x.0, x.1.now)) result ≡ window_end_at bytes.now }
{
    let (number, rest) = integer(bytes)?;
    if -9_223_372_036_854_775_807 <= number && number <= 9_223_372_036_854_775_807 {
        Some((number as i64, rest))
    } else {
        None
    }
}
