// Arrays by variable.
ghost use Rattle.std.specs.Prelude.{◌+◌, ◌<◌, ◌^◌, IfOk};
ghost use Rattle.ground_parts.specs.inner.Totals.{IsClear};

use std::alloc::Global;
use symbols::Memory;

// A flag and two sums for each variable, from 0 up to the last. A theory atom is checked on clear ones, which
// are clear again afterwards, so that no atom pays for variables that it does not name.
#[derive(Drop)]
pub(crate) struct Scratch {
    pub(crate) seen: Vec<bool>,
    pub(crate) left: Vec<i128>,
    pub(crate) right: Vec<i128>,
}

impl Scratch {
    // Clear arrays for so many variables.
    pub(crate) fn new(alloc: Global, variables: usize) -> Result<Scratch, Memory>
        requires { variables + 1 < 2 ^ 64 }
        ensures { IfOk result (IsClear variables) }
    {
        let seen = vec![in alloc; false; variables + 1]?;
        let left = vec![in alloc; 0; variables + 1]?;
        let right = vec![in alloc; 0; variables + 1]?;
        Ok(Scratch { seen, left, right })
    }
}
