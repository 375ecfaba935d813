// The words `#const` and `#show`.
ghost use Rattle.std.specs.Prelude.{◌≡◌, ◌<◌, length, IfOk, IfErr, slice_index};
ghost use Rattle.lexer.specs.Faults.{HasFault};
ghost use Rattle.lexer.specs.inner.Lexeme.{IsLexeme};

use crate::lexeme::Lexeme;
use crate::token::{LexCause, LexFault, TokenKind};

// The word at the front, where `#` stands.
pub(crate) fn word(rest: &[u8]) -> Result<Lexeme, LexFault>
    requires begins { 0 < length rest.now }
    requires hash { slice_index rest.now 0 ≡ 35 }
    ensures ok { IfOk result (λ lexeme. IsLexeme rest.now lexeme) }
    ensures fault { IfErr result (λ fault. HasFault fault.cause fault.at rest.now) }
{
    if rest.starts_with(b"#const") {
        return Ok(Lexeme::Single(TokenKind::ConstWord, 6));
    }
    if rest.starts_with(b"#show") {
        return Ok(Lexeme::Single(TokenKind::ShowWord, 5));
    }
    Err(LexFault {
        at: 0,
        cause: LexCause::BadCharacter,
    })
}
