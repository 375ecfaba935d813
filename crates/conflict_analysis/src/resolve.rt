// Resolving the literals of a conflict away, latest first.
ghost use Rattle.std.specs.Prelude.{◌≡◌, ◌<◌, ℕ, length, OnOk, IfOk};
ghost use Rattle.std.specs.List.{AllByRecursion};
ghost use Rattle.trail.specs.Assignment.{IsAssignment};
ghost use Rattle.conflict_analysis.specs.Justified.{IsJustified};
ghost use Rattle.conflict_analysis.specs.declared.learned.Start.{Start};
ghost use Rattle.conflict_analysis.specs.inner.Runs.{Runs, IsReady, IsSettled};

use crate::learned::Link;
use crate::marks::{Mark, Marks};
use crate::put::{is_high, put_all, recount};
use crate::reasons::{reason_lits, start_for};
use crate::walk::{Hit, last_before};
use literals::complement;
use nogood_store::Store;
use std::alloc::Global;
use symbols::{Listed, Memory};
use trail::Trail;

// Resolves the literal with the reason of the entry by which it became true, and gives how many literals
// are of the level then.
fn resolve_at(
    alloc: Global,
    marks: &mut Marks,
    trail: &Trail,
    store: &Store,
    chain: &mut Listed<Link>,
    hit: Hit,
    high: usize,
    count: usize,
) -> Result<usize, Memory>
    ghost first: { Start }
    requires assignment { IsAssignment trail.now }
    requires justified { IsJustified store.now.held trail.now }
    requires run { IsReady store.now.held trail.now first chain.old high hit.place hit.lit marks.old count }
    requires two { 0 < high → count ≡ 1 → ⊥ }
    ensures { IfOk result (λ n. Runs store.now.held trail.now first chain.new high hit.place marks.new n) }
{
    let entry = trail.entry(hit.place);
    let used = start_for(alloc, &entry.why)?;
    let mark = Mark::ByEntry(hit.lit, hit.place);
    let was = is_high(trail, mark, high);
    let left = recount(count, was, false);
    marks.unset(hit.lit);
    let lits = reason_lits(store, &entry.why);
    let out = complement(entry.lit);
    let count = put_all(marks, trail, lits, Some(out), high, left)?;
    chain.push(Link {
        pivot: hit.lit,
        used,
    })?;
    Ok(count)
}

/// Resolves literals away, latest first, until one alone is of the level, or, at level 0, until only
/// those are left that the ends imply.
pub(crate) fn resolve_all(
    alloc: Global,
    marks: &mut Marks,
    trail: &Trail,
    store: &Store,
    chain: &mut Listed<Link>,
    high: usize,
    count: usize,
) -> Result<(), Memory>
    ghost first: { Start }
    requires justified { IsJustified store.now.held trail.now }
    requires run { Runs store.now.held trail.now first chain.old high (length trail.now.entries) marks.old count }
    ensures { OnOk result ((at : ℕ) × (n : ℕ) × Runs store.now.held trail.now first chain.new high at marks.new n × IsSettled trail.now high marks.new n) }
{
    let mut at = trail.length();
    let mut count = count;
    'resolve: loop {
        if high > 0 && count == 1 {
            return Ok(());
        }
        match last_before(marks, trail, at) {
            Some(hit) => {
                count = resolve_at(alloc, marks, trail, store, chain, hit, high, count)?;
                at = hit.place;
            }
            None => return Ok(()),
        }
    }
}
