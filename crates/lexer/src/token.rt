// Tokens, and why a text has none.
ghost use Rattle.std.specs.Prelude.{◌≡◌};

use symbols::Memory;

/// What a token is. Which mark a `Mark` is, its bytes tell.
#[derive(Clone, Copy, Debug, PartialEq, Eq)]
pub enum TokenKind {
    /// A number from 0 to 2147483647.
    Num,
    /// An identifier: `a`, `_x1`, `f'`.
    Id,
    /// A variable: `X`, `_Y1`.
    Var,
    /// The variable without a name, `_`.
    Anon,
    /// A string between its quotes.
    Text,
    /// The word `not`.
    NotWord,
    /// The word `#const`.
    ConstWord,
    /// The word `#show`.
    ShowWord,
    /// A mark, as `.` or `:-`.
    Mark,
}

/// A token of a text: its bytes are those from `start` up to and not including `end`, counted from 0.
#[derive(Clone, Copy, Debug, PartialEq, Eq)]
pub struct Token {
    pub kind: TokenKind,
    pub start: usize,
    pub end: usize,
}

/// Why a text has no tokens.
#[derive(Clone, Copy, Debug, PartialEq, Eq)]
pub enum LexCause {
    /// A byte that begins no character.
    NotUtf8,
    /// A string that is not closed on its line, or that holds another escape.
    OpenString,
    /// A comment `%*` that is not closed.
    OpenComment,
    /// A byte that begins no token.
    BadCharacter,
    /// A number above 2147483647.
    NumberTooLarge,
}

/// The first fault of a text: its place, a byte counted from 0, and its cause.
#[derive(Clone, Copy, Debug, PartialEq, Eq)]
pub struct LexFault {
    pub at: usize,
    pub cause: LexCause,
}

/// Why there are no tokens.
#[derive(Clone, Copy, Debug, PartialEq, Eq)]
pub enum LexStop {
    Fault(LexFault),
    Memory,
}

impl From<Memory> for LexStop {
    ghost use Rattle.lexer.specs.declared.token.LexStop.TheVariants.{Memory as NoMemory};

    ghost from_gives = { λ _ stop. stop ≡ NoMemory };

    fn from(_: Memory) -> Self {
        LexStop::Memory
    }
}
