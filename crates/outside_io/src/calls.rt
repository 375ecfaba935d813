// Calls by number, of which those in a list fail.
ghost use Rattle.std.specs.Prelude.{◌↔◌, OnErr, IsErr, IsErrOf};
ghost use Rattle.outside_io.specs.Faults.{RisesWhere};

use crate::fault_count::FaultCount;
use crate::files::OutFault;
use symbols::Listed;

// The calls of one object, from 1 over all kinds, and the numbers of those that fail.
#[derive(Debug, Drop)]
pub(crate) struct Calls {
    failing: Listed<u64>,
    made: u64,
    pub(crate) faults: FaultCount,
}

impl Calls {
    ghost use Rattle.outside_io.specs.Numbered.{NextFails, CountsCall, IsFresh};

    pub(crate) fn new(failing: Listed<u64>) -> Calls
        ensures { IsFresh result failing }
    {
        Calls {
            failing,
            made: 0,
            faults: FaultCount::new(),
        }
    }

    // Begins one more call, and counts a fault where it is one that fails.
    pub(crate) fn begin(&mut self) -> Result<(), OutFault>
        ensures counted { CountsCall self.old self.new }
        ensures listed { IsErr result ↔ NextFails self.old }
        ensures answer { OnErr result (IsErrOf result OutFault.Failed) }
        ensures cause { RisesWhere (IsErrOf result OutFault.Failed) self.old.faults self.new.faults }
    {
        self.made = self.made.saturating_add(1);
        let number = self.made;
        if self.failing.items().contains(&number) {
            return Err(self.faults.failed());
        }
        Ok(())
    }
}
