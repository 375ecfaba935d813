// Marks of one and of two bytes.
ghost use Rattle.std.specs.Prelude.{◌≡◌, ◌<◌, true, length, IfOk, IfErr, slice_index};
ghost use Rattle.lexer.specs.Bytes.{is_other};
ghost use Rattle.lexer.specs.Forms.{is_short_mark};
ghost use Rattle.lexer.specs.Faults.{HasFault};
ghost use Rattle.lexer.specs.inner.Lexeme.{IsLexeme, begins_long_mark};

use crate::lexeme::Lexeme;
use crate::token::{LexCause, LexFault, TokenKind};

fn is_short_mark(byte: u8) -> bool
    ensures { result ≡ is_short_mark byte }
{
    b".,;:(){}+-*/\\@&=<>".contains(&byte)
}

// Whether a mark of two bytes is at the front.
fn begins_long_mark(rest: &[u8]) -> bool
    ensures { result ≡ begins_long_mark rest.now }
{
    match rest {
        [b'.', b'.', ..] => true,
        [b':', b'-', ..] => true,
        [b'!', b'=', ..] => true,
        [b'<', b'=', ..] => true,
        [b'>', b'=', ..] => true,
        _ => false,
    }
}

// The mark at the front, where nothing else can begin.
pub(crate) fn mark(rest: &[u8]) -> Result<Lexeme, LexFault>
    requires begins { 0 < length rest.now }
    requires other { is_other (slice_index rest.now 0) ≡ true }
    ensures ok { IfOk result (λ lexeme. IsLexeme rest.now lexeme) }
    ensures fault { IfErr result (λ fault. HasFault fault.cause fault.at rest.now) }
{
    if begins_long_mark(rest) {
        return Ok(Lexeme::Single(TokenKind::Mark, 2));
    }
    if is_short_mark(rest[0]) {
        return Ok(Lexeme::Single(TokenKind::Mark, 1));
    }
    Err(LexFault {
        at: 0,
        cause: LexCause::BadCharacter,
    })
}
