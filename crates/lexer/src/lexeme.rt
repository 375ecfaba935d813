// What stands at the front of a text: a blank, a comment or a token.
ghost use Rattle.std.specs.Prelude.{◌≡◌, ◌<◌, length, IfOk, IfErr};
ghost use Rattle.lexer.specs.Faults.{HasFault};
ghost use Rattle.lexer.specs.inner.Lexeme.{IsLexeme, lexeme_length};

use crate::bytes::{is_blank, is_digit, is_name_first};
use crate::comment::comment;
use crate::mark::mark;
use crate::name::name;
use crate::number::number;
use crate::string::string;
use crate::token::{LexFault, TokenKind};
use crate::word::word;

// What was read at the front.
#[derive(Clone, Copy, Debug, PartialEq, Eq)]
pub(crate) enum Lexeme {
    // A blank, or a comment of this many bytes.
    Gap(usize),
    // A token of this kind and of this many bytes.
    Single(TokenKind, usize),
    // So many variables without a name, each of one byte.
    Anons(usize),
}

impl Lexeme {
    // How many bytes it takes.
    pub(crate) fn length(&self) -> usize
        ensures { result ≡ lexeme_length self.now }
    {
        match self {
            Lexeme::Gap(length) => *length,
            Lexeme::Single(_, length) => *length,
            Lexeme::Anons(count) => *count,
        }
    }
}

// What stands at the front, which is not the end.
pub(crate) fn next_lexeme(rest: &[u8]) -> Result<Lexeme, LexFault>
    requires { 0 < length rest.now }
    ensures ok { IfOk result (λ lexeme. IsLexeme rest.now lexeme) }
    ensures fault { IfErr result (λ fault. HasFault fault.cause fault.at rest.now) }
{
    let byte = rest[0];
    if is_blank(byte) {
        return Ok(Lexeme::Gap(1));
    }
    if is_digit(byte) {
        return number(rest);
    }
    if is_name_first(byte) {
        return Ok(name(rest));
    }
    if byte == b'"' {
        return string(rest);
    }
    if byte == b'%' {
        return comment(rest);
    }
    if byte == b'#' {
        return word(rest);
    }
    mark(rest)
}
