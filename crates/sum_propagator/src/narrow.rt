// What a sum that is true on a side forces.
ghost use Rattle.std.specs.Prelude.{◌≡◌, ℕ, ◌<◌, pos, ◌+ℤ◌, ◌≤ℤ◌, length, get_or, IsTrue, OnOk};
ghost use Rattle.linear_normal.specs.declared.constraint.Item.{Item};
ghost use Rattle.trail.specs.Assignment.{IsAssignment};
ghost use Rattle.trail.specs.Growth.{Grows};
ghost use Rattle.propagator_core.specs.Shown.{IsShown};
ghost use Rattle.trail_bounds.specs.OnTrail.{bounds_on};
ghost use Rattle.trail_bounds.specs.Sides.{Rests, side_sum};
ghost use Rattle.sum_propagator.specs.Kinds.{meaning_of, IsOn};
ghost use Rattle.sum_propagator.specs.Sides.{limit_of};

use crate::reason::explain;
use crate::sum::Sum;
use linear_normal::Item;
use literals::complement;
use std::alloc::Global;
use symbols::Memory;
use trail::{Trail, Why};
use trail_bounds::implied_bound;

// Sets what the item, which stands at this place, needs within the slack.
fn press_item(
    alloc: Global,
    trail: &mut Trail,
    sum: &Sum,
    side: bool,
    at: usize,
    item: Item,
    slack: u128,
) -> Result<(), Memory>
    requires assignment { IsAssignment trail.old }
    requires fits { IsTrue ((meaning_of sum.now.kind sum.now.number sum.now.items sum.now.most).fits trail.old.shape) }
    requires on { IsOn trail.old sum.now.kind sum.now.number side }
    requires at { at < length sum.now.items }
    requires item { (d : Item) → get_or sum.now.items at d ≡ item }
    requires slack { limit_of side sum.now.most ≤ℤ (side_sum side (bounds_on trail.old) sum.now.items +ℤ pos slack) }
    ensures grows { Grows (IsShown (meaning_of sum.now.kind sum.now.number sum.now.items sum.now.most).valid) trail.old trail.new }
    ensures rests { OnOk result (trail.new ≡ trail.old → Rests side (bounds_on trail.old) slack item) }
{
    match implied_bound(trail, item, side, slack) {
        None => Ok(()),
        Some(needed) => {
            let instead = complement(needed.lit);
            let reason = explain(alloc, trail, sum, side, at, instead, needed.spare)?;
            trail.set(needed.lit, Why::Shown(reason))?;
            Ok(())
        }
    }
}

// Sets what the item at this place needs within the slack.
fn press_one(
    alloc: Global,
    trail: &mut Trail,
    sum: &Sum,
    side: bool,
    at: usize,
    slack: u128,
) -> Result<(), Memory>
    requires assignment { IsAssignment trail.old }
    requires fits { IsTrue ((meaning_of sum.now.kind sum.now.number sum.now.items sum.now.most).fits trail.old.shape) }
    requires on { IsOn trail.old sum.now.kind sum.now.number side }
    requires at { at < length sum.now.items }
    requires slack { limit_of side sum.now.most ≤ℤ (side_sum side (bounds_on trail.old) sum.now.items +ℤ pos slack) }
    ensures grows { Grows (IsShown (meaning_of sum.now.kind sum.now.number sum.now.items sum.now.most).valid) trail.old trail.new }
    ensures rests { OnOk result (trail.new ≡ trail.old → (d : Item) → Rests side (bounds_on trail.old) slack (get_or sum.now.items at d)) }
{
    let item = sum.items.items()[at];
    press_item(alloc, trail, sum, side, at, item, slack)
}

/// Sets what the items need within the slack, the sum being true on this side.
pub(crate) fn press(
    alloc: Global,
    trail: &mut Trail,
    sum: &Sum,
    side: bool,
    slack: u128,
) -> Result<(), Memory>
    requires assignment { IsAssignment trail.old }
    requires fits { IsTrue ((meaning_of sum.now.kind sum.now.number sum.now.items sum.now.most).fits trail.old.shape) }
    requires on { IsOn trail.old sum.now.kind sum.now.number side }
    requires slack { limit_of side sum.now.most ≤ℤ (side_sum side (bounds_on trail.old) sum.now.items +ℤ pos slack) }
    ensures grows { Grows (IsShown (meaning_of sum.now.kind sum.now.number sum.now.items sum.now.most).valid) trail.old trail.new }
    ensures rest { OnOk result (trail.new ≡ trail.old → (k : ℕ) (d : Item) → k < length sum.now.items → Rests side (bounds_on trail.old) slack (get_or sum.now.items k d)) }
{
    for at in 0..sum.items.len() {
        press_one(alloc, trail, sum, side, at, slack)?;
    }
    Ok(())
}
