// Marking literals as they are met.
ghost use Rattle.std.specs.Prelude.{◌≡◌, ◌+◌, ◌^◌, ◌<◌, ◌≤◌, ℕ, true, false, cond, OnOk, IfOk};
ghost use Rattle.std.specs.List.{AllByRecursion};
ghost use Rattle.trail.specs.Assignment.{Names, since_on};
ghost use Rattle.conflict_analysis.specs.Marked.{Fits, IsMark, is_high as of_level, high_count, mark_at};
ghost use Rattle.conflict_analysis.specs.inner.Runs.{mark_since, covers_lit, board_with, boards_with, all_but, is_out_lit};

use crate::marks::{Mark, Marks};
use literals::{Lit, implies};
use symbols::Memory;
use trail::Trail;

// The mark of a literal, by when it became true.
fn mark_for(trail: &Trail, lit: Lit) -> Mark
    requires { Names trail.now.shape lit }
    ensures { result ≡ mark_since lit (since_on trail.now lit) }
{
    match trail.since(lit) {
        Some(place) => Mark::ByEntry(lit, place),
        None => Mark::ByEnds(lit),
    }
}

// Whether the mark's literal implies this one.
fn covers(mark: Mark, lit: Lit) -> bool
    ensures { result ≡ covers_lit mark lit }
{
    match mark {
        Mark::Clear => false,
        Mark::ByEnds(other) | Mark::ByEntry(other, _) => implies(other, lit),
    }
}

/// Whether the mark is of a literal that became true by an entry of the level.
pub(crate) fn is_high(trail: &Trail, mark: Mark, high: usize) -> bool
    requires { IsMark trail.now mark }
    ensures { result ≡ of_level trail.now high mark }
{
    match mark {
        Mark::ByEntry(_, place) => trail.entry(place).level == high,
        _ => false,
    }
}

/// The count once what was counted, or not, is another that is counted, or not.
pub(crate) fn recount(count: usize, was: bool, is: bool) -> usize
    requires least { was ≡ true → 1 ≤ count }
    requires room { was ≡ false → is ≡ true → count + 1 < 2 ^ 64 }
    ensures { result + cond was 1 0 ≡ count + cond is 1 0 }
{
    match (was, is) {
        (true, false) => count - 1,
        (false, true) => count + 1,
        _ => count,
    }
}

// Marks the literal, unless one is marked that implies it, and gives how many marked literals are of
// the level then.
fn put(
    marks: &mut Marks,
    trail: &Trail,
    lit: Lit,
    high: usize,
    count: usize,
) -> Result<usize, Memory>
    requires fits { Fits trail.now.shape marks.old }
    requires named { Names trail.now.shape lit }
    requires marks { (i : ℕ) → IsMark trail.now (mark_at marks.old i) }
    requires counted { count ≡ high_count trail.now high marks.old.marks }
    ensures board { OnOk result (marks.new ≡ board_with trail.now marks.old lit) }
    ensures counted { IfOk result (λ n. n ≡ high_count trail.now high marks.new.marks) }
{
    let old = marks.mark(lit);
    if covers(old, lit) {
        return Ok(count);
    }
    let new = mark_for(trail, lit);
    let was = is_high(trail, old, high);
    let is = is_high(trail, new, high);
    marks.set(lit, new)?;
    Ok(recount(count, was, is))
}

// Whether the literal is the one that is left out.
fn is_out(lit: Lit, out: Option<Lit>) -> bool
    ensures { result ≡ is_out_lit out lit }
{
    match out {
        Some(other) => implies(lit, other) && implies(other, lit),
        None => false,
    }
}

/// Marks the literals but the one that is left out, and gives how many marked literals are of the level
/// then.
pub(crate) fn put_all(
    marks: &mut Marks,
    trail: &Trail,
    lits: &[Lit],
    out: Option<Lit>,
    high: usize,
    count: usize,
) -> Result<usize, Memory>
    requires fits { Fits trail.now.shape marks.old }
    requires named { AllByRecursion (Names trail.now.shape) lits.now }
    requires marks { (i : ℕ) → IsMark trail.now (mark_at marks.old i) }
    requires counted { count ≡ high_count trail.now high marks.old.marks }
    ensures board { OnOk result (marks.new ≡ boards_with trail.now marks.old (all_but out lits.now)) }
    ensures counted { IfOk result (λ n. n ≡ high_count trail.now high marks.new.marks) }
{
    let mut count = count;
    for lit in lits {
        if is_out(*lit, out) {
            continue;
        }
        count = put(marks, trail, *lit, high, count)?;
    }
    Ok(count)
}
