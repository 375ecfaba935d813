// Taking the literals that are left: those that the ends imply are resolved away.
ghost use Rattle.std.specs.Prelude.{◌≡◌, ℕ, [], IfOk, OnOk};
ghost use Rattle.literals.specs.Lits.{IsLit};
ghost use Rattle.conflict_analysis.specs.Marked.{IsClear, mark_at};
ghost use Rattle.conflict_analysis.specs.inner.Runs.{Setting, Drains, SortsOut, LitOfMark, hole_link};

use crate::learned::{Link, Start};
use crate::marks::{Mark, Marks};
use literals::{Lit, Nogood, Reason, Step, complement};
use std::alloc::Global;
use symbols::{Listed, Memory};

// The link that resolves a literal away that the ends imply.
fn hole(alloc: Global, lit: Lit) -> Result<Link, Memory>
    requires { IsLit lit }
    ensures { IfOk result (λ k. k ≡ hole_link lit) }
{
    let nogood = Nogood::from_lits(alloc, &[complement(lit)])?;
    let step = Step::Hole(0);
    Ok(Link {
        pivot: lit,
        used: Start::Shown(Reason { nogood, step }),
    })
}

// Resolves the mark's literal away where the ends imply it, else keeps it.
fn sort_out(
    alloc: Global,
    chain: &mut Listed<Link>,
    kept: &mut Listed<Lit>,
    mark: Mark,
) -> Result<(), Memory>
    requires { LitOfMark mark }
    ensures { OnOk result (SortsOut mark chain.old chain.new kept.old kept.new) }
{
    match mark {
        Mark::Clear => Ok(()),
        Mark::ByEnds(lit) => chain.push(hole(alloc, lit)?),
        Mark::ByEntry(lit, _) => kept.push(lit),
    }
}

/// Takes the marked literals: those that the ends imply are resolved away, the others are kept.
pub(crate) fn drain(
    alloc: Global,
    marks: &mut Marks,
    chain: &mut Listed<Link>,
) -> Result<Listed<Lit>, Memory>
    requires { (i : ℕ) → LitOfMark (mark_at marks.old i) }
    ensures left { IfOk result (λ kept. (of : Setting) → Drains of chain.old marks.old [] → Drains of chain.new marks.new kept) }
    ensures clear { OnOk result (IsClear marks.new) }
{
    let mut kept = Listed::new(alloc);
    'drain: loop {
        match marks.take() {
            Some(mark) => sort_out(alloc, chain, &mut kept, mark)?,
            None => return Ok(kept),
        }
    }
}
