// What a sum waits for.
ghost use Rattle.std.specs.Prelude.{◌≡◌, ◌++◌, map, IfOk, OnOk};
ghost use Rattle.sum_propagator.specs.Sums as sums;
ghost use Rattle.sum_propagator.specs.Kinds.{meaning_of};

use crate::sum::{Kind, Sum};
use linear_normal::Item;
use propagator_core::Touch;
use std::alloc::Global;
use symbols::{Listed, Memory};

// What the item counts.
fn touch_of(item: Item) -> Touch
    ensures { result ≡ sums.touch_of item }
{
    match item {
        Item::Value(x, _) => Touch::Bounds(x),
        Item::Truth(n, _) => Touch::Truth(n),
    }
}

// These, and what the items count.
fn with_items(touches: Listed<Touch>, items: &[Item]) -> Result<Listed<Touch>, Memory>
    ensures { IfOk result (λ all. all ≡ touches ++ map sums.touch_of items.now) }
{
    let mut all = touches;
    for item in items {
        all.push(touch_of(*item))?;
    }
    Ok(all)
}

/// The sum's own truth, unless it is the objective, and what its items count.
pub(crate) fn touches_of(alloc: Global, sum: &Sum) -> Result<Listed<Touch>, Memory>
    ensures { IfOk result (λ touches. touches ≡ (meaning_of sum.now.kind sum.now.number sum.now.items sum.now.most).touches) }
{
    let mut own = Listed::new(alloc);
    match sum.kind {
        Kind::Constraint => {
            own.push(Touch::Truth(sum.number))?;
            with_items(own, sum.items.items())
        }
        Kind::Unbounded | Kind::Bounded => with_items(own, sum.items.items()),
    }
}
