// Copies of what constraints own.
ghost use Rattle.std.specs.Prelude.{◌≡◌, IfOk};

use ground_model::{IntSet, Linear, Place};
use std::alloc::Global;
use symbols::{Listed, Memory};

fn copy_linear(alloc: Global, linear: &Linear) -> Result<Linear, Memory>
    ensures { IfOk result (λ copy. copy ≡ linear.now) }
{
    let pairs = Listed::from_slice(alloc, linear.pairs.items())?;
    Ok(Linear {
        pairs,
        constant: linear.constant,
    })
}

fn copy_place(alloc: Global, place: &Place) -> Result<Place, Memory>
    ensures { IfOk result (λ copy. copy ≡ place.now) }
{
    let linear = copy_linear(alloc, &place.linear)?;
    let rest = Listed::from_slice(alloc, place.rest.items())?;
    Ok(Place {
        linear,
        duration: place.duration,
        rest,
    })
}

// The same tuples.
pub(crate) fn copy_places(alloc: Global, places: &[Place]) -> Result<Listed<Place>, Memory>
    ensures { IfOk result (λ copy. copy ≡ places.now) }
{
    let mut copy = Listed::new(alloc);
    for place in places {
        copy.push(copy_place(alloc, place)?)?;
    }
    Ok(copy)
}

// The same integers.
pub(crate) fn copy_set(alloc: Global, set: &IntSet) -> Result<IntSet, Memory>
    ensures { IfOk result (λ copy. copy ≡ set.now) }
{
    let intervals = Listed::from_slice(alloc, set.intervals.items())?;
    Ok(IntSet { intervals })
}
