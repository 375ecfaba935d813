// Why a line is refused, or a derivation not closed.
use symbols::Memory;

/// Why a line was not taken. The causes are tried in this order; want of memory has no place in it.
#[derive(Clone, Copy, Debug, PartialEq, Eq)]
pub enum Refused {
    /// A claim was made before.
    AfterEnd,
    /// An `r` line names an id under which no nogood is live.
    UnknownId,
    /// An `m` line in a program with an objective, an `o` line in one without, or an `o` line whose cost is
    /// not the objective of its values or no smaller than the last.
    WrongObjective,
    /// The atoms and values are no constraint stable model.
    WrongAnswer,
    /// An `m` line gave this answer before.
    RepeatedAnswer,
    /// The rule of the line does not show it.
    NotImplied,
    /// Memory could not be had.
    Memory,
}

impl From<Memory> for Refused {
    ghost use Rattle.std.specs.Prelude.{◌≡◌};
    ghost use Rattle.proof_checker.specs.declared.refused.Refused.TheVariants as refused;

    ghost from_gives = { λ _ stopped. stopped ≡ refused.Memory };

    fn from(_: Memory) -> Refused {
        Refused::Memory
    }
}

/// No `q` line was taken.
#[derive(Clone, Copy, Debug, PartialEq, Eq)]
pub struct NotClosed;
