//! Numbers as words write them.
ghost use Rattle.std.specs.Prelude.{◌≡◌, ◌≤◌, ◌&&◌, pos, negsuc, ◌≤ℤ◌, IfSome, Some, None, nat_le, if◌then◌else◌};
ghost use Rattle.std.specs.Char.{is_ascii_digit};
ghost use Rattle.std.specs.List.{list_all};
ghost use Rattle.command_words.specs.Numbers.{is_decimal, number_within, integer_within};

use symbols::limits::MAX_END;

/// The greatest end; the least is its opposite.
const WIDEST: u64 = MAX_END as u64;

/// Whether each byte is a decimal digit.
fn are_digits(bytes: &[u8]) -> bool
    ensures { result ≡ list_all is_ascii_digit bytes.now }
{
    bytes.iter().all(|byte| byte.is_ascii_digit())
}

/// Whether the text is decimal digits, with no leading zero but in `0` itself.
fn is_decimal(text: &str) -> bool
    ensures { result ≡ is_decimal text.now }
{
    let bytes = text.as_bytes();
    match bytes {
        [] => false,
        [first, rest @ ..] => are_digits(bytes) && (*first != b'0' || rest.is_empty()),
    }
}

/// The number, where it lies from `low` to `high`.
fn if_within(number: u64, low: u64, high: u64) -> Option<u64>
    ensures { result ≡ (if nat_le low number && nat_le number high then Some number else None) }
{
    if low <= number && number <= high {
        Some(number)
    } else {
        None
    }
}

/// The number that the text writes, where it is one from `low` to `high`.
pub fn number_in(text: &str, low: u64, high: u64) -> Option<u64>
    ensures { result ≡ number_within low high text.now }
{
    if !is_decimal(text) {
        return None;
    }
    match text.parse::<u64>() {
        Ok(number) => if_within(number, low, high),
        Err(_) => None,
    }
}

/// The integer that the text writes, where it is one from -1073741823 to 1073741823.
pub fn end_in(text: &str) -> Option<i32>
    ensures value { result ≡ integer_within 1073741823 text.now }
    ensures low { IfSome result (λ end. negsuc 1073741822 ≤ℤ end) }
    ensures high { IfSome result (λ end. end ≤ℤ pos 1073741823) }
{
    match text.strip_prefix('-') {
        Some(digits) => match number_in(digits, 1, WIDEST) {
            Some(number) => Some(-(number as i32)),
            None => None,
        },
        None => match number_in(text, 0, WIDEST) {
            Some(number) => Some(number as i32),
            None => None,
        },
    }
}
