// What stands at a place of the tokens.
ghost use Rattle.std.specs.Prelude.{◌≡◌, ◌+◌, ◌<◌, ◌≤◌, ◌∷◌, [], length, pos, IsTrue, IsSome, IfSome, IfNone, IfOk};
ghost use Rattle.grammar.specs.Word as spec;
ghost use Rattle.grammar.specs.Spelled.{AreTokens, IsSpelled, bytes_at as bytes_there, word_by};
ghost use Rattle.std.specs.Str.Parse.{digits_value};

use crate::mark::{Mark, mark_of};
use lexer::{Token, TokenKind};
use std::alloc::Global;
use symbols::{Listed, Memory};

/// What a word is.
#[derive(Clone, Copy, Debug, PartialEq, Eq)]
pub enum WordKind {
    Number,
    Text,
    Name,
    Variable,
    Anonymous,
    Not,
    Const,
    Show,
    Mark(Mark),
}

// The kind of a token with these bytes.
fn kind_of(kind: TokenKind, bytes: &[u8]) -> WordKind
    ensures { word_by result bytes.now ≡ spec.word_of kind bytes.now }
{
    match kind {
        TokenKind::Num => WordKind::Number,
        TokenKind::Id => WordKind::Name,
        TokenKind::Var => WordKind::Variable,
        TokenKind::Anon => WordKind::Anonymous,
        TokenKind::Text => WordKind::Text,
        TokenKind::NotWord => WordKind::Not,
        TokenKind::ConstWord => WordKind::Const,
        TokenKind::ShowWord => WordKind::Show,
        TokenKind::Mark => WordKind::Mark(mark_of(bytes)),
    }
}

/// The bytes of the word at a place.
#[inline]
pub fn bytes_at<'a>(text: &'a [u8], tokens: &[Token], at: usize) -> &'a [u8]
    requires tokens { AreTokens text.now tokens.now }
    requires within { at < length tokens.now }
    ensures { result.now ≡ bytes_there text.now tokens.now at }
{
    let token = tokens[at];
    &text[token.start..token.end]
}

/// What the word at a place is; none behind the last one.
#[inline]
pub fn word_at(text: &[u8], tokens: &[Token], at: usize) -> Option<WordKind>
    requires { AreTokens text.now tokens.now }
    ensures end { IfNone result (spec.words_at text.now tokens.now at ≡ []) }
    ensures word { IfSome result (λ kind. spec.words_at text.now tokens.now at ≡ word_by kind (bytes_there text.now tokens.now at) ∷ spec.words_at text.now tokens.now (at + 1)) }
    ensures within { IfSome result (λ kind. at < length tokens.now) }
{
    if at >= tokens.len() {
        return None;
    }
    Some(kind_of(tokens[at].kind, bytes_at(text, tokens, at)))
}

/// Whether a mark stands at a place.
#[inline]
pub fn is_mark(text: &[u8], tokens: &[Token], at: usize, mark: Mark) -> bool
    requires { AreTokens text.now tokens.now }
    ensures is { result ≡ spec.is_next mark (spec.words_at text.now tokens.now at) }
    ensures within { IsTrue result → at < length tokens.now }
{
    match word_at(text, tokens, at) {
        Some(WordKind::Mark(found)) => mark.is(found),
        _ => false,
    }
}

/// The number that decimal digits write.
pub fn number_of(digits: &[u8]) -> i32
    requires { IsSpelled TokenKind.Num digits.now }
    ensures { result ≡ pos (digits_value 10 digits.now) }
{
    let mut number: u32 = 0;
    for digit in digits {
        number = number * 10 + (*digit - b'0') as u32;
    }
    number as i32
}

/// What a string between its quotes holds, its escapes undone.
pub fn string_content(alloc: Global, bytes: &[u8]) -> Result<Listed<u8>, Memory>
    ensures { IfOk result (λ content. content ≡ spec.string_content bytes.now) }
{
    let mut content = Listed::new(alloc);
    let mut escape = false;
    if bytes.is_empty() {
        return Ok(content);
    }
    for byte in &bytes[1..] {
        if escape {
            content.push(escaped(*byte))?;
            escape = false;
            continue;
        }
        if *byte == b'"' {
            return Ok(content);
        }
        if *byte == b'\\' {
            escape = true;
            continue;
        }
        content.push(*byte)?;
    }
    Ok(content)
}

// The byte that an escape stands for.
fn escaped(byte: u8) -> u8
    ensures { result ≡ spec.escaped byte }
{
    if byte == b'n' { b'\n' } else { byte }
}
