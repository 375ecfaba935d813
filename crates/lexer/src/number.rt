// Numbers: a run of digits is one token.
ghost use Rattle.std.specs.Prelude.{◌≡◌, ◌<◌, true, length, IfOk, IfErr, slice_index};
ghost use Rattle.std.specs.List.{list_all};
ghost use Rattle.lexer.specs.Bytes.{is_digit};
ghost use Rattle.lexer.specs.Forms.{is_zero_led, is_too_large};
ghost use Rattle.lexer.specs.Faults.{HasFault};
ghost use Rattle.lexer.specs.inner.Lexeme.{IsLexeme};

use crate::bytes::digits;
use crate::lexeme::Lexeme;
use crate::token::{LexCause, LexFault, TokenKind};

// Whether a zero stands before another digit.
fn is_zero_led(digits: &[u8]) -> bool
    ensures { result ≡ is_zero_led digits.now }
{
    match digits {
        [first, _, ..] => *first == b'0',
        _ => false,
    }
}

// Whether digits write a number above 2147483647.
fn is_too_large(digits: &[u8]) -> bool
    requires { list_all is_digit digits.now ≡ true }
    ensures { result ≡ is_too_large digits.now }
{
    let mut value = 0u64;
    for digit in digits {
        value = value * 10 + u64::from(*digit - b'0');
        if value > 2_147_483_647 {
            return true;
        }
    }
    false
}

// The number at the front, where a digit stands.
pub(crate) fn number(rest: &[u8]) -> Result<Lexeme, LexFault>
    requires begins { 0 < length rest.now }
    requires digit { is_digit (slice_index rest.now 0) ≡ true }
    ensures ok { IfOk result (λ lexeme. IsLexeme rest.now lexeme) }
    ensures fault { IfErr result (λ fault. HasFault fault.cause fault.at rest.now) }
{
    let length = digits(rest);
    if is_zero_led(&rest[..length]) {
        return Err(LexFault {
            at: 1,
            cause: LexCause::BadCharacter,
        });
    }
    if is_too_large(&rest[..length]) {
        return Err(LexFault {
            at: 0,
            cause: LexCause::NumberTooLarge,
        });
    }
    Ok(Lexeme::Single(TokenKind::Num, length))
}
