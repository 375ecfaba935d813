// From a conflict to the nogood that answers it, and the id under which lines tell it.
ghost use Rattle.std.specs.Prelude.{◌≡◌, ◌⊎◌, ◌≤◌, ◌+◌, ◌^◌, ℕ, List, [], ◌∷◌, length, Some, MatchOption, IfOk, IsErrOf};
ghost use Rattle.std.specs.List.{AllByRecursion};
ghost use Rattle.literals.specs.declared.lit.Lit.{Lit};
ghost use Rattle.ground_model.specs.declared.program.GroundProgram.{GroundProgram as TheProgram};
ghost use Rattle.trail.specs.Assignment.{Names};
ghost use Rattle.trail.specs.Forced.{AllTrueOn};
ghost use Rattle.conflict_analysis.specs.Justified.{IsJustified};
ghost use Rattle.conflict_analysis.specs.Chains.{IsConflicting, nogood_of};
ghost use Rattle.conflict_analysis.specs.Levels.{IsAsserting, IsByEntry, highest};
ghost use Rattle.learning.specs.Known.{Known};
ghost use Rattle.learning.specs.Chain.{shown_lines, uses_of};
ghost use Rattle.learning.specs.Learning.{IsAnswered, IsLesson, IsFull};

use conflict_analysis::{Learned, Link, Marks, Start, analyse};
use nogood_store::Store;
use std::alloc::Global;
use trail::Trail;

/// What answers a conflict: a nogood with its chain and the level to go back to, and the id that a derivation's
/// lines give it.
#[derive(Debug, Drop)]
pub struct Lesson {
    pub learned: Learned,
    /// The last id that the lines take: each shown reason takes one, and the nogood the one behind them.
    pub id: u64,
}

/// Why nothing is learned.
#[derive(Clone, Copy, Debug, PartialEq, Eq)]
pub enum NoLesson {
    /// No id below 2^64 is left for the next line.
    Full,
    /// Memory could not be had.
    Memory,
}

// How many ids the start takes: a shown reason one, a held nogood none.
fn ids_of(start: &Start) -> usize
    ensures { result ≡ length (shown_lines (start.now ∷ [])) }
{
    match start {
        Start::Held(_) => 0,
        Start::Shown(_) => 1,
    }
}

// How many ids the lines of the shown reasons take.
fn count_ids(first: &Start, chain: &[Link]) -> usize
    ensures { result ≡ length (shown_lines (uses_of first.now chain.now)) }
{
    let mut count = ids_of(first);
    for link in chain {
        count += ids_of(&link.used);
    }
    count
}

// The id of the `r` line, where the last id and so many more were taken, if it is below 2^64.
fn id_after(last: u64, shown: usize) -> Option<u64>
    ensures { MatchOption result (2 ^ 64 ≤ last + shown + 1) (λ after. after ≡ last + shown + 1) }
{
    match last.checked_add(shown as u64) {
        None => None,
        Some(told) => told.checked_add(1),
    }
}

/// Learns from a nogood whose literals are all true. `last` is the last id that was taken.
///
/// It costs what `analyse` does.
pub fn learn(
    alloc: Global,
    marks: &mut Marks,
    trail: &Trail,
    store: &Store,
    last: u64,
    start: Start,
) -> Result<Lesson, NoLesson>
    requires justified { IsJustified store.now.held trail.now }
    requires conflict { IsConflicting store.now.held trail.now start }
    ensures lesson { IfOk result (λ lesson. (program : TheProgram) (known : Known) → IsAnswered program known last store.now.held trail.now start → IsLesson program known store.now.held lesson.learned lesson.id) }
    ensures named { IfOk result (λ lesson. AllByRecursion (Names trail.now.shape) lesson.learned.nogood) }
    ensures by_entries { IfOk result (λ lesson. AllByRecursion (IsByEntry trail.now) lesson.learned.nogood) }
    ensures all_true { IfOk result (λ lesson. AllTrueOn trail.now lesson.learned.nogood) }
    ensures asserting { IfOk result (λ lesson. (lesson.learned.nogood ≡ []) ⊎ IsAsserting trail.now lesson.learned.nogood lesson.learned.level) }
    ensures lowest { IfOk result (λ lesson. lesson.learned.nogood ≡ [] → lesson.learned.level ≡ 0) }
    ensures empty { IfOk result (λ lesson. (n : List Lit) → nogood_of store.now.held start ≡ Some n → highest trail.now n ≡ 0 → lesson.learned.nogood ≡ []) }
    ensures full { IsErrOf result NoLesson.Full → (program : TheProgram) (known : Known) → IsAnswered program known last store.now.held trail.now start → IsFull program known store.now.held }
{
    match analyse(alloc, marks, trail, store, start) {
        Err(_) => Err(NoLesson::Memory),
        Ok(learned) => {
            let shown = count_ids(&learned.first, learned.chain.items());
            match id_after(last, shown) {
                None => Err(NoLesson::Full),
                Some(id) => Ok(Lesson { learned, id }),
            }
        }
    }
}
