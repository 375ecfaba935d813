// Identifiers, variables and the word `not`.
ghost use Rattle.std.specs.Prelude.{◌≡◌, ◌<◌, true, length, slice_index};
ghost use Rattle.lexer.specs.Bytes.{is_name_first};
ghost use Rattle.lexer.specs.inner.Lexeme.{IsLexeme, letter_kind, name_kind, word_kind};

use crate::bytes::{is_lower, is_upper, name_bytes, underscores};
use crate::lexeme::Lexeme;
use crate::token::TokenKind;

// The kind of name that a letter begins.
fn letter_kind(byte: u8) -> Option<TokenKind>
    ensures { result ≡ letter_kind byte }
{
    if is_lower(byte) {
        Some(TokenKind::Id)
    } else if is_upper(byte) {
        Some(TokenKind::Var)
    } else {
        None
    }
}

// The kind of name at the front: that of the letter behind its underscores.
fn name_kind(rest: &[u8]) -> Option<TokenKind>
    ensures { result ≡ name_kind rest.now }
{
    for byte in rest {
        if *byte != b'_' {
            return letter_kind(*byte);
        }
    }
    None
}

// What a name is: the word `not`, or what its first letter says.
fn word_kind(kind: TokenKind, word: &[u8]) -> TokenKind
    ensures { result ≡ word_kind kind word.now }
{
    if word == b"not".as_slice() {
        TokenKind::NotWord
    } else {
        kind
    }
}

// The name at the front, where an underscore or a letter stands. Underscores with no letter behind
// them are read at once, so that each of them is looked at once.
pub(crate) fn name(rest: &[u8]) -> Lexeme
    requires begins { 0 < length rest.now }
    requires first { is_name_first (slice_index rest.now 0) ≡ true }
    ensures { IsLexeme rest.now result }
{
    match name_kind(rest) {
        Some(kind) => {
            let length = name_bytes(rest);
            Lexeme::Single(word_kind(kind, &rest[..length]), length)
        }
        None => Lexeme::Anons(underscores(rest)),
    }
}
