// Comments: from `%` to the end of the line, and from `%*` to the first `*%`.
ghost use Rattle.std.specs.Prelude.{◌≡◌, ◌<◌, length, IfOk, IfErr, slice_index};
ghost use Rattle.std.specs.List.{position_or_len};
ghost use Rattle.lexer.specs.Bytes.{is_line_feed};
ghost use Rattle.lexer.specs.Parts.{begins_close, close_from};
ghost use Rattle.lexer.specs.Faults.{HasFault};
ghost use Rattle.lexer.specs.inner.Lexeme.{IsLexeme, begins_comment};

use crate::lexeme::Lexeme;
use crate::token::{LexCause, LexFault};

fn begins_comment(rest: &[u8]) -> bool
    ensures { result ≡ begins_comment rest.now }
{
    match rest {
        [first, second, ..] => *first == b'%' && *second == b'*',
        _ => false,
    }
}

fn begins_close(rest: &[u8]) -> bool
    ensures { result ≡ begins_close rest.now }
{
    match rest {
        [first, second, ..] => *first == b'*' && *second == b'%',
        _ => false,
    }
}

// How many bytes stand before the first `*%`, if there is one.
fn inside_length(inside: &[u8]) -> Option<usize>
    ensures { result ≡ close_from 0 inside.now }
{
    for at in 0..inside.len() {
        if begins_close(&inside[at..]) {
            return Some(at);
        }
    }
    None
}

// How many bytes stand before the end of the line.
fn line_length(rest: &[u8]) -> usize
    ensures { result ≡ position_or_len is_line_feed rest.now }
{
    rest.iter().take_while(|byte| **byte != b'\n').count()
}

// The comment at the front, where `%` stands.
pub(crate) fn comment(rest: &[u8]) -> Result<Lexeme, LexFault>
    requires begins { 0 < length rest.now }
    requires percent { slice_index rest.now 0 ≡ 37 }
    ensures ok { IfOk result (λ lexeme. IsLexeme rest.now lexeme) }
    ensures fault { IfErr result (λ fault. HasFault fault.cause fault.at rest.now) }
{
    if !begins_comment(rest) {
        return Ok(Lexeme::Gap(line_length(rest)));
    }
    match inside_length(&rest[2..]) {
        Some(length) => Ok(Lexeme::Gap(length + 4)),
        None => Err(LexFault {
            at: 0,
            cause: LexCause::OpenComment,
        }),
    }
}
