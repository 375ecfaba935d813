// The lines of a derivation, and why bytes are none.
use literals::Lit;
use symbols::{Listed, Memory};

/// A line of a derivation, its fields in the order of its text. Atoms, bodies, constraints and variables
/// are numbered from 1.
#[derive(Debug, Drop)]
pub enum Line {
    /// `p clingcon 1 MIN MAX LIMIT`: the version, the ends of every variable, and the ground limit.
    Header(u8, i32, i32, u64),
    /// `s C = lits`: a sum is beyond its bound; 0 is the objective.
    Sum(u32, Listed<Lit>),
    /// `d C A B = lits`: more places of a distinct constraint lie from A to B than there are numbers.
    Distinct(u32, i64, i64, Listed<Lit>),
    /// `g C w A B = lits`: more work of a disjoint constraint lies between A and B than fits.
    Window(u32, i64, i64, Listed<Lit>),
    /// `g C p I J = lits`: neither of two places of a disjoint constraint can come first.
    Pair(u32, u32, u32, Listed<Lit>),
    /// `u ATOM ATOM .. = lits`: the atoms are supported only by each other.
    Loop(Listed<u32>, Listed<Lit>),
    /// `w C = lits`: a variable has no number left; 0 stands for the ends.
    Hole(u32, Listed<Lit>),
    /// `r ID LIT ID LIT ID .. = lits`: the first nogood, resolved at each literal with the next nogood.
    Learned(u64, Listed<(Lit, u64)>, Listed<Lit>),
    /// `m aN .. vN=K ..`: an answer, its true atoms and the value of each variable.
    Answer(Listed<u32>, Listed<(u32, i32)>),
    /// `o COST aN .. vN=K ..`: an answer that is better than those before.
    Better(i128, Listed<u32>, Listed<(u32, i32)>),
    /// `q none`: there is no answer.
    EndNone,
    /// `q all N`: the answers were N, and there is no other.
    EndAll(u64),
    /// `q best COST`: no answer is better.
    EndBest(i128),
}

/// Why a line was not read.
#[derive(Clone, Copy, Debug, PartialEq, Eq)]
pub enum LineStop {
    /// The bytes are the spelling of no line.
    BadLine,
    /// Memory could not be had.
    Memory,
}

impl From<Memory> for LineStop {
    ghost use Rattle.std.specs.Prelude.{◌≡◌};
    ghost use Rattle.derivation.specs.declared.line.LineStop.TheVariants as stop;

    ghost from_gives = { λ _ stopped. stopped ≡ stop.Memory };

    fn from(_: Memory) -> LineStop {
        LineStop::Memory
    }
}
