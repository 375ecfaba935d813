// Why a text is refused.
ghost use Rattle.std.specs.Prelude.{◌≡◌};
ghost use Rattle.asp_parser.specs.Parsed as spec;

use grammar::Check;
use lexer::LexCause;

/// Why a text is refused.
#[derive(Clone, Copy, Debug, PartialEq, Eq)]
pub enum TextCause {
    /// A byte that begins no character.
    NotUtf8,
    /// A string that is not closed on its line, or that holds another escape.
    OpenString,
    /// A comment `%*` that is not closed.
    OpenComment,
    /// A byte that begins no token.
    BadCharacter,
    /// A number above 2147483647.
    NumberTooLarge,
    /// No statement goes on with the token there, or the text ends within one.
    Expected,
    /// Argument lists, parentheses and signs would nest deeper than 64.
    TooDeep,
    /// A theory atom with another name than sum, diff, distinct, disjoint, dom, minimize, maximize and show.
    UnknownTheory,
    /// A theory atom that may not stand in a body, or `:-` behind one that stands alone.
    WrongPlace,
    /// A guard that is missing, that may not stand there, or that has another relation than it may.
    BadGuard,
    /// A term that may not stand there, or a mark.
    BadTerm,
    /// A rule with more than 64 variables.
    TooManyVariables,
}

/// The first fault of a text: its line and its column, both from 1, columns in bytes, and its cause.
#[derive(Clone, Copy, Debug, PartialEq, Eq)]
pub struct TextFault {
    pub line: usize,
    pub column: usize,
    pub cause: TextCause,
}

/// Why a text has no statements.
#[derive(Clone, Copy, Debug, PartialEq, Eq)]
pub enum TextStop {
    Fault(TextFault),
    Memory,
}

// The cause of a text that has no tokens.
pub(crate) fn lex_cause(cause: LexCause) -> TextCause
    ensures { result ≡ spec.lex_cause cause }
{
    match cause {
        LexCause::NotUtf8 => TextCause::NotUtf8,
        LexCause::OpenString => TextCause::OpenString,
        LexCause::OpenComment => TextCause::OpenComment,
        LexCause::BadCharacter => TextCause::BadCharacter,
        LexCause::NumberTooLarge => TextCause::NumberTooLarge,
    }
}

// The cause of a check that fails.
pub(crate) fn check_cause(check: Check) -> TextCause
    ensures { result ≡ spec.check_cause check }
{
    match check {
        Check::UnknownTheory => TextCause::UnknownTheory,
        Check::WrongPlace => TextCause::WrongPlace,
        Check::BadGuard => TextCause::BadGuard,
        Check::BadTerm => TextCause::BadTerm,
        Check::TooManyVariables => TextCause::TooManyVariables,
    }
}
