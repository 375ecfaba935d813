// The count of the calls that failed.
ghost use Rattle.std.specs.Prelude.{◌≡◌, ◌≤◌};
ghost use Rattle.outside_io.specs.Faults.{Rose};

use crate::files::OutFault;
use std::marker::Model;

// A count of faults, which stops at its last value. `Failed` is answered only by counting here.
#[derive(Debug, Drop)]
pub(crate) struct FaultCount {
    count: u64,
}

impl Model for FaultCount {
    ghost use Rattle.std.specs.Prelude.{ℕ};

    ghost Value = { ℕ };

    ghost view = { λ faults. faults.count };
}

impl FaultCount {
    pub(crate) fn new() -> FaultCount
        ensures { result ≡ 0 }
    {
        FaultCount { count: 0 }
    }

    // Counts one more fault, and gives its answer.
    pub(crate) fn failed(&mut self) -> OutFault
        ensures answer { result ≡ OutFault.Failed }
        ensures later { self.old ≤ self.new }
        ensures rose { Rose self.old self.new }
    {
        self.count = self.count.saturating_add(1);
        OutFault::Failed
    }
}
