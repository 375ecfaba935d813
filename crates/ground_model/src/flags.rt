// Sets of atoms as flags and as lists of numbers.
ghost use Rattle.std.specs.Prelude.{◌≡◌, ◌<◌, ◌^◌, length, IfOk};
ghost use Rattle.ground_model.specs.World.{flagged_from};

use std::alloc::Global;
use symbols::{Listed, Memory};

// The numbers of the flags that are set, counted from 1.
pub(crate) fn flagged(alloc: Global, flags: &[bool]) -> Result<Listed<u32>, Memory>
    requires { length flags.now < 2 ^ 32 }
    ensures { IfOk result (λ numbers. numbers ≡ flagged_from 1 flags.now) }
{
    let mut numbers = Listed::new(alloc);
    let mut before = 0;
    for flag in flags {
        if *flag {
            numbers.push(before + 1)?;
        }
        before += 1;
    }
    Ok(numbers)
}
