// Why a sum forces a literal or is in conflict.
ghost use Rattle.std.specs.Prelude.{◌≡◌, ℕ, ◌+◌, ◌<◌, List, length, IsTrue, IfOk};
ghost use Rattle.std.specs.List.{All, AllByRecursion};
ghost use Rattle.literals.specs.declared.lit.Lit.{Lit};
ghost use Rattle.trail.specs.Assignment.{IsAssignment, Names};
ghost use Rattle.trail_bounds.specs.OnTrail.{is_item_of};
ghost use Rattle.sum_propagator.specs.Kinds as kinds;
ghost use Rattle.sum_propagator.specs.Reasons.{Backs, Explains};

use crate::sum::{Kind, Sum};
use linear_normal::Item;
use literals::{Lit, Nogood, Reason, Step};
use std::alloc::Global;
use symbols::Memory;
use trail::Trail;
use trail_bounds::back_item;

// Adds what the item at this place stands on, or another literal in its place, and gives what is left of
// the slack.
fn back_at(
    trail: &Trail,
    items: &[Item],
    side: bool,
    but: usize,
    instead: Lit,
    at: usize,
    slack: u128,
    lits: &mut Vec<Lit>,
) -> Result<u128, Memory>
    requires assignment { IsAssignment trail.now }
    requires named { All (λ item. IsTrue (is_item_of trail.now.shape item)) items.now }
    requires instead { but < length items.now → Names trail.now.shape instead }
    requires at { at < length items.now }
    ensures { IfOk result (λ left. (start : ℕ) (first : List Lit) → Backs trail.now side items.now but instead start slack at first lits.old.items → Backs trail.now side items.now but instead start left (at + 1) first lits.new.items) }
{
    if at != but {
        return back_item(trail, items[at], side, slack, lits);
    }
    lits.push(instead)?;
    Ok(slack)
}

// Adds the literals on which the least sum stands, but for the slack, with another one in the place of one
// item.
fn back_all(
    trail: &Trail,
    items: &[Item],
    side: bool,
    but: usize,
    instead: Lit,
    slack: u128,
    lits: &mut Vec<Lit>,
) -> Result<u128, Memory>
    requires assignment { IsAssignment trail.now }
    requires named { All (λ item. IsTrue (is_item_of trail.now.shape item)) items.now }
    requires instead { but < length items.now → Names trail.now.shape instead }
    ensures { IfOk result (λ left. Backs trail.now side items.now but instead slack left (length items.now) lits.old.items lits.new.items) }
{
    let mut left = slack;
    for at in 0..items.len() {
        left = back_at(trail, items, side, but, instead, at, left, lits)?;
    }
    Ok(left)
}

// The literal that each reason of the sum on this side has, where there is one.
fn own_lits(alloc: Global, sum: &Sum, side: bool) -> Result<Vec<Lit>, Memory>
    ensures { IfOk result (λ lits. lits.items ≡ kinds.own_lits sum.now.kind sum.now.number side) }
{
    let mut lits = Vec::new(alloc);
    match sum.kind {
        Kind::Constraint => {
            lits.push(Lit::Constraint(sum.number, side))?;
            Ok(lits)
        }
        Kind::Unbounded | Kind::Bounded => Ok(lits),
    }
}

// The step of the sum's reasons.
fn step_of(sum: &Sum) -> Step
    ensures { result ≡ kinds.step_of sum.now.kind sum.now.number }
{
    match sum.kind {
        Kind::Constraint => Step::Sum(sum.number),
        Kind::Unbounded | Kind::Bounded => Step::Sum(0),
    }
}

/// The constraint on this side, unless it is the objective, and the literals on which the least sum
/// stands, with another one in the place of one item, or of none where the place is past the last. Their
/// sum may be smaller by the slack.
pub(crate) fn explain(
    alloc: Global,
    trail: &Trail,
    sum: &Sum,
    side: bool,
    but: usize,
    instead: Lit,
    slack: u128,
) -> Result<Reason, Memory>
    requires assignment { IsAssignment trail.now }
    requires own { AllByRecursion (Names trail.now.shape) (kinds.own_lits sum.now.kind sum.now.number side) }
    requires named { All (λ item. IsTrue (is_item_of trail.now.shape item)) sum.now.items }
    requires instead { but < length sum.now.items → Names trail.now.shape instead }
    ensures { IfOk result (λ reason. Explains trail.now sum.now.kind sum.now.number sum.now.items side but instead slack reason) }
{
    let mut lits = own_lits(alloc, sum, side)?;
    let items = sum.items.items();
    back_all(trail, items, side, but, instead, slack, &mut lits)?;
    let nogood = Nogood::from_lits(alloc, lits.as_slice())?;
    Ok(Reason {
        nogood,
        step: step_of(sum),
    })
}
