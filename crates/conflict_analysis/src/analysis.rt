// From a conflict to the nogood that says why.
ghost use Rattle.std.specs.Prelude.{◌≡◌, ◌⊎◌, ℕ, [], List, Some, IfOk};
ghost use Rattle.std.specs.List.{AllByRecursion};
ghost use Rattle.literals.specs.declared.lit.Lit.{Lit};
ghost use Rattle.trail.specs.Assignment.{Names};
ghost use Rattle.trail.specs.Forced.{AllTrueOn};
ghost use Rattle.conflict_analysis.specs.Justified.{IsJustified};
ghost use Rattle.conflict_analysis.specs.Levels as level;
ghost use Rattle.conflict_analysis.specs.Levels.{IsByEntry, IsAsserting};
ghost use Rattle.conflict_analysis.specs.Chains.{nogood_of, replayed, IsUsable, IsConflicting, PivotsDiffer};
ghost use Rattle.conflict_analysis.specs.inner.Runs.{Runs, IsSettled};
ghost use Rattle.conflict_analysis.specs.declared.learned.Start.{Start as Begin};

use crate::drain::drain;
use crate::learned::{Learned, Link, Start};
use crate::level::{highest, next_highest};
use crate::marks::Marks;
use crate::put::put_all;
use crate::reasons::start_lits;
use crate::resolve::resolve_all;
use literals::Nogood;
use nogood_store::Store;
use std::alloc::Global;
use symbols::{Listed, Memory};
use trail::Trail;

// Marks the literals of the start and resolves them away until one alone is of the highest level. Gives
// that level.
fn resolve_from(
    alloc: Global,
    marks: &mut Marks,
    trail: &Trail,
    store: &Store,
    chain: &mut Listed<Link>,
    start: &Start,
) -> Result<usize, Memory>
    ghost first: { Begin }
    requires same { first ≡ start.now }
    requires justified { IsJustified store.now.held trail.now }
    requires conflict { IsConflicting store.now.held trail.now start.now }
    requires empty { chain.old ≡ [] }
    ensures run { IfOk result (λ high. (at : ℕ) × (n : ℕ) × Runs store.now.held trail.now start.now chain.new high at marks.new n × IsSettled trail.now high marks.new n) }
    ensures high { IfOk result (λ high. (n : List Lit) → nogood_of store.now.held start.now ≡ Some n → high ≡ level.highest trail.now n) }
{
    marks.begin(trail.shape())?;
    let lits = start_lits(store, start);
    let high = highest(trail, lits);
    let count = put_all(marks, trail, lits, None, high, 0)?;
    resolve_all(alloc, marks, trail, store, chain, high, count)?;
    Ok(high)
}

/// Learns from a nogood whose literals are all true, by the first unique implication point.
///
/// It costs the literals that are met, the entries of the highest level from the last of them on, and
/// the sorting of the learned nogood.
pub fn analyse(
    alloc: Global,
    marks: &mut Marks,
    trail: &Trail,
    store: &Store,
    start: Start,
) -> Result<Learned, Memory>
    requires justified { IsJustified store.now.held trail.now }
    requires conflict { IsConflicting store.now.held trail.now start }
    ensures first { IfOk result (λ l. l.first ≡ start) }
    ensures used { IfOk result (λ l. AllByRecursion (λ k. IsUsable store.now.held trail.now k.used) l.chain) }
    ensures replays { IfOk result (λ l. replayed store.now.held start l.chain ≡ Some l.nogood) }
    ensures once { IfOk result (λ l. PivotsDiffer l.chain) }
    ensures named { IfOk result (λ l. AllByRecursion (Names trail.now.shape) l.nogood) }
    ensures by_entries { IfOk result (λ l. AllByRecursion (IsByEntry trail.now) l.nogood) }
    ensures all_true { IfOk result (λ l. AllTrueOn trail.now l.nogood) }
    ensures asserting { IfOk result (λ l. (l.nogood ≡ []) ⊎ IsAsserting trail.now l.nogood l.level) }
    ensures lowest { IfOk result (λ l. l.nogood ≡ [] → l.level ≡ 0) }
    ensures empty { IfOk result (λ l. (n : List Lit) → nogood_of store.now.held start ≡ Some n → level.highest trail.now n ≡ 0 → l.nogood ≡ []) }
{
    let mut chain = Listed::new(alloc);
    let high = resolve_from(alloc, marks, trail, store, &mut chain, &start)?;
    let kept = drain(alloc, marks, &mut chain)?;
    let nogood = Nogood::from_lits(alloc, kept.items())?;
    let level = next_highest(trail, nogood.lits(), high);
    Ok(Learned {
        nogood,
        first: start,
        chain,
        level,
    })
}
