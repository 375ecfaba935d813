// What is said of whole programs.
ghost use Rattle.std.specs.Prelude.{◌≡◌, codes, IfOk};

use std::alloc::Global;
use symbols::{Listed, Memory};

/// The line of a program with too many integer variables.
pub fn variables_line(alloc: Global) -> Result<Listed<u8>, Memory>
    ensures { IfOk result (λ printed. printed ≡ codes "error: more than 1048576 integer variables\n") }
{
    Listed::from_slice(alloc, b"error: more than 1048576 integer variables\n")
}

/// The line of a program with an objective that is too large.
pub fn objective_line(alloc: Global) -> Result<Listed<u8>, Memory>
    ensures { IfOk result (λ printed. printed ≡ codes "error: objective too large\n") }
{
    Listed::from_slice(alloc, b"error: objective too large\n")
}
