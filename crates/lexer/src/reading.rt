// The tokens of a text.
ghost use Rattle.std.specs.Prelude.{◌≡◌, ◌+◌, ◌<◌, ◌^◌, ◌++◌, length, IfOk, OnOk};
ghost use Rattle.std.specs.List.{All};
ghost use Rattle.lexer.specs.Parts.{IsParted, IsTokenisation};
ghost use Rattle.lexer.specs.Tokens.{IsTokenOf, IsInOrder};
ghost use Rattle.lexer.specs.Faults.{IfFault, IsFirstFault, IsStopped};
ghost use Rattle.lexer.specs.inner.Lexeme.{anon_tokens, lexeme_length, lexeme_tokens};

use crate::lexeme::{Lexeme, next_lexeme};
use crate::token::{LexCause, LexFault, LexStop, Token, TokenKind};
use std::alloc::Global;
use std::str::from_utf8;
use symbols::{Listed, Memory};

// Adds so many variables without a name, the first of which stands at a place.
fn push_anons(tokens: &mut Listed<Token>, at: usize, count: usize) -> Result<(), Memory>
    requires { at + count < 2 ^ 64 }
    ensures { OnOk result (tokens.new ≡ tokens.old ++ anon_tokens at count) }
{
    for index in 0..count {
        tokens.push(Token {
            kind: TokenKind::Anon,
            start: at + index,
            end: at + index + 1,
        })?;
    }
    Ok(())
}

// Adds the tokens of a lexeme that stands at a place.
fn push_tokens(tokens: &mut Listed<Token>, at: usize, lexeme: Lexeme) -> Result<(), Memory>
    requires { at + lexeme_length lexeme < 2 ^ 64 }
    ensures { OnOk result (tokens.new ≡ tokens.old ++ lexeme_tokens at lexeme) }
{
    match lexeme {
        Lexeme::Gap(_) => Ok(()),
        Lexeme::Single(kind, length) => tokens.push(Token {
            kind,
            start: at,
            end: at + length,
        }),
        Lexeme::Anons(count) => push_anons(tokens, at, count),
    }
}

// The tokens of the parts of a text, or the first place where no part stands.
fn read(alloc: Global, text: &[u8]) -> Result<Listed<Token>, LexStop>
    ensures ok { IfOk result (λ tokens. IsParted text.now tokens) }
    ensures fault { IfFault result (λ fault. IsStopped text.now fault) }
{
    let mut tokens = Listed::new(alloc);
    let mut rest = text;
    while !rest.is_empty() {
        let at = text.len() - rest.len();
        match next_lexeme(rest) {
            Ok(lexeme) => {
                push_tokens(&mut tokens, at, lexeme)?;
                rest = rest.split_at(lexeme.length()).1;
            }
            Err(fault) => {
                return Err(LexStop::Fault(LexFault {
                    at: at + fault.at,
                    cause: fault.cause,
                }));
            }
        }
    }
    Ok(tokens)
}

/// The tokens of a text, or its first fault. Time is linear in the text, and no memory is taken but
/// for the tokens.
///
/// That a text is UTF-8 is looked for first. A text has an answer, as `first_fault` says, and no other, as `one_answer`
/// says.
pub fn tokens(alloc: Global, text: &[u8]) -> Result<Listed<Token>, LexStop>
    ensures ok { IfOk result (λ tokens. IsTokenisation text.now tokens) }
    ensures each { IfOk result (λ tokens. All (IsTokenOf text.now) tokens) }
    ensures order { IfOk result (λ tokens. IsInOrder 0 tokens) }
    ensures fault { IfFault result (λ fault. IsFirstFault text.now fault) }
    ensures place { IfFault result (λ fault. fault.at < length text.now) }
{
    match from_utf8(text) {
        Ok(_) => read(alloc, text),
        Err(error) => Err(LexStop::Fault(LexFault {
            at: error.valid_up_to(),
            cause: LexCause::NotUtf8,
        })),
    }
}
