// Strings, each on one line.
ghost use Rattle.std.specs.Prelude.{◌≡◌, ◌<◌, false, length, IfOk, IfErr, slice_index};
ghost use Rattle.lexer.specs.Bytes.{is_escape};
ghost use Rattle.lexer.specs.Faults.{HasFault};
ghost use Rattle.lexer.specs.inner.Lexeme.{IsLexeme, string_from};

use crate::lexeme::Lexeme;
use crate::token::{LexCause, LexFault, TokenKind};

fn is_escape(byte: u8) -> bool
    ensures { result ≡ is_escape byte }
{
    byte == b'\\' || byte == b'"' || byte == b'n'
}

// How many bytes a string takes behind its opening quote, with its closing one; none if it is not
// closed on its line or holds another escape.
fn inside_length(inside: &[u8]) -> Option<usize>
    ensures { result ≡ string_from 0 inside.now false }
{
    let mut escaped = false;
    for (at, byte) in inside.iter().enumerate() {
        if escaped {
            if !is_escape(*byte) {
                return None;
            }
            escaped = false;
            continue;
        }
        if *byte == b'"' {
            return Some(at + 1);
        }
        if *byte == b'\n' {
            return None;
        }
        escaped = *byte == b'\\';
    }
    None
}

// The string at the front, where a quote stands.
pub(crate) fn string(rest: &[u8]) -> Result<Lexeme, LexFault>
    requires begins { 0 < length rest.now }
    requires quote { slice_index rest.now 0 ≡ 34 }
    ensures ok { IfOk result (λ lexeme. IsLexeme rest.now lexeme) }
    ensures fault { IfErr result (λ fault. HasFault fault.cause fault.at rest.now) }
{
    match inside_length(&rest[1..]) {
        Some(length) => Ok(Lexeme::Single(TokenKind::Text, length + 1)),
        None => Err(LexFault {
            at: 0,
            cause: LexCause::OpenString,
        }),
    }
}
