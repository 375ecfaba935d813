// Why a domain constraint forces a literal or is in conflict.
ghost use Rattle.std.specs.Prelude.{◌≡◌, ◌++◌, ◌≤ℤ◌, ◌<ℤ◌, pos, neg_ℤ, ◌^◌, ◌-◌, ◌≤◌, option_to_list, IsTrue, IfOk, OnOk, IfSome, IfNone};
ghost use Rattle.trail.specs.Assignment.{IsAssignment};
ghost use Rattle.propagators.specs.Domains.{fits_domain};
ghost use Rattle.propagators.specs.inner.Gaps.{IsAtBound, lit_over, lit_under, Explains, IsLitBeside, IsNoneBeside};

use crate::gap::Gap;
use ground_model::IntSet;
use literals::{Lit, Nogood, Reason, Step};
use std::alloc::Global;
use symbols::{Ends, Memory};
use trail::Trail;

/// A domain constraint: its number, and that the variable has one of the numbers of the set.
#[derive(Debug, Drop)]
pub(crate) struct Domain {
    pub(crate) number: u32,
    pub(crate) variable: u32,
    pub(crate) set: IntSet,
}

// That the variable lies above the number: nothing where the ends say it, or there is none.
fn over(ends: Ends, x: u32, below: Option<i32>) -> Option<Lit>
    requires { IfSome below (λ a. a <ℤ pos (2 ^ 31 - 1)) }
    ensures { result ≡ lit_over ends x below }
{
    let below = below?;
    if below < ends.min {
        None
    } else {
        Some(Lit::AtLeast(x, below + 1))
    }
}

// That the variable lies below the number: nothing where the ends say it, or there is none.
fn under(ends: Ends, x: u32, above: Option<i32>) -> Option<Lit>
    requires { IfSome above (λ b. neg_ℤ (pos (2 ^ 31)) <ℤ b) }
    ensures { result ≡ lit_under ends x above }
{
    let above = above?;
    if ends.max < above {
        None
    } else {
        Some(Lit::AtMost(x, above - 1))
    }
}

// Adds the literal, if there is one.
fn push_some(lits: &mut Vec<Lit>, lit: Option<Lit>) -> Result<(), Memory>
    ensures { OnOk result (lits.new.items ≡ lits.old.items ++ option_to_list lit) }
{
    if let Some(lit) = lit {
        lits.push(lit)?;
    }
    Ok(())
}

/// That the constraint is true and the variable lies in the gap: no number is left for it.
pub(crate) fn explain(
    alloc: Global,
    trail: &Trail,
    domain: &Domain,
    gap: Gap,
) -> Result<Reason, Memory>
    requires assignment { IsAssignment trail.now }
    requires fits { IsTrue (fits_domain domain.now.number domain.now.variable trail.now.shape) }
    requires gap { IsAtBound trail.now domain.now.variable domain.now.set.intervals gap }
    ensures { IfOk result (λ reason. Explains trail.now domain.now.number domain.now.variable gap reason) }
{
    let ends = trail.shape().ends;
    let mut lits = Vec::new(alloc);
    lits.push(Lit::Constraint(domain.number, true))?;
    push_some(&mut lits, under(ends, domain.variable, gap.above))?;
    push_some(&mut lits, over(ends, domain.variable, gap.below))?;
    let nogood = Nogood::from_lits(alloc, lits.as_slice())?;
    Ok(Reason {
        nogood,
        step: Step::Hole(domain.number),
    })
}

/// The bound at the gap's other side, where that lies within the variable's bounds.
pub(crate) fn beside(trail: &Trail, x: u32, gap: Gap) -> Option<Lit>
    requires { x ≤ trail.now.shape.variables }
    ensures some { IfSome result (λ lit. IsLitBeside trail.now x gap lit) }
    ensures none { IfNone result (IsNoneBeside trail.now x gap) }
{
    match gap.above {
        Some(above) if above <= trail.upper(x) => return Some(Lit::AtLeast(x, above)),
        _ => {}
    }
    match gap.below {
        Some(below) if below >= trail.lower(x) => Some(Lit::AtMost(x, below)),
        _ => None,
    }
}
