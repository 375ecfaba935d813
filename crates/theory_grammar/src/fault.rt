// Why a form is not read, and which check fails.
ghost use Rattle.std.specs.Prelude.{◌≡◌};

use symbols::Memory;

/// Why a form is not read, or which check fails.
#[derive(Clone, Copy, Debug, PartialEq, Eq)]
pub enum ParseCause {
    /// No form goes on with the word.
    Expected,
    /// Argument lists, parentheses and signs would nest deeper than 64.
    TooDeep,
    UnknownTheory,
    BadGuard,
    BadTerm,
}

/// A fault: its place, in bytes from 0, and its cause.
#[derive(Clone, Copy, Debug, PartialEq, Eq)]
pub struct ParseFault {
    pub at: usize,
    pub cause: ParseCause,
}

/// Why a form is not read.
#[derive(Clone, Copy, Debug, PartialEq, Eq)]
pub enum ParseStop {
    Fault(ParseFault),
    Memory,
}

/// Why a form is not read; places are those of words, from 0.
#[derive(Clone, Copy, Debug, PartialEq, Eq)]
pub enum Stop {
    /// No form goes on with the word there.
    Expected(usize),
    /// Only one that nests deeper than 64 does.
    TooDeep(usize),
    Memory,
}

impl From<Memory> for Stop {
    ghost use Rattle.theory_grammar.specs.declared.fault.Stop.TheVariants.{Memory as NoMemory};

    ghost from_gives = { λ _ stop. stop ≡ NoMemory };

    fn from(_: Memory) -> Stop {
        Stop::Memory
    }
}
