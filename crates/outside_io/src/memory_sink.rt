// An output in memory, with calls that fail by number.
ghost use Rattle.std.specs.Prelude.{◌≡◌, ◌↔◌, ◌++◌, ◌∷◌, length, Some, IfOk, OnOk, OnErr, IsErrOf, []};
ghost use Rattle.std.specs.Option.{option_copied};
ghost use Rattle.outside_io.specs.Faults.{RisesWhere};
ghost use Rattle.outside_io.specs.Numbered.{NextFails, CountsCall, IsFresh};

use crate::calls::Calls;
use crate::files::OutFault;
use crate::sink::Sink;
use std::alloc::Global;
use symbols::{Listed, Memory};

/// An output that keeps its bytes in memory, also where it is opened without a name.
#[derive(Debug, Drop)]
pub struct MemorySink {
    alloc: Global,
    calls: Calls,
    written: Listed<u8>,
    flushed: usize,
    names: Listed<Option<Listed<u8>>>,
}

impl MemorySink {
    ghost use Rattle.outside_io.specs.MemorySink.{calls_of, written_of, flushed_of, names_of};

    /// An open output with nothing written and no name listed. The calls of the numbers in `failing`
    /// fail, from 1 over all kinds.
    pub fn new(alloc: Global, failing: Listed<u64>) -> Result<MemorySink, Memory>
        ensures written { IfOk result (λ made. written_of made ≡ []) }
        ensures flushed { IfOk result (λ made. flushed_of made ≡ 0) }
        ensures names { IfOk result (λ made. names_of made ≡ []) }
        ensures calls { IfOk result (λ made. IsFresh (calls_of made) failing) }
    {
        Ok(MemorySink {
            alloc,
            calls: Calls::new(failing),
            written: Listed::new(alloc),
            flushed: 0,
            names: Listed::new(alloc),
        })
    }

    /// The bytes written since the last opening.
    pub fn bytes(&self) -> &[u8]
        ensures { result.now ≡ written_of self.now }
    {
        self.written.items()
    }

    /// How many of these bytes were flushed.
    pub fn flushed(&self) -> usize
        ensures { result ≡ flushed_of self.now }
    {
        self.flushed
    }

    /// The names, or None, of the openings, in order.
    pub fn names(&self) -> &[Option<Listed<u8>>]
        ensures { result.now ≡ names_of self.now }
    {
        self.names.items()
    }
}

impl Sink for MemorySink {
    ghost use Rattle.outside_io.specs.MemorySink.{calls_of, written_of, flushed_of, names_of};

    ghost tells = { λ sink. record { written = Some (written_of sink); flushed = Some (flushed_of sink); opened = Some (names_of sink); faults = (calls_of sink).faults } };

    fn open_sink(&mut self, name: Option<&str>) -> Result<(), OutFault>
        ensures counted { CountsCall (calls_of self.old) (calls_of self.new) }
        ensures failing { IsErrOf result OutFault.Failed ↔ NextFails (calls_of self.old) }
        ensures written { OnOk result (written_of self.new ≡ []) }
        ensures flushed { OnOk result (flushed_of self.new ≡ 0) }
        ensures names { OnOk result (names_of self.new ≡ names_of self.old ++ option_copied name.entry ∷ []) }
        ensures refused { OnErr result ((written_of self.new ≡ written_of self.old) × (flushed_of self.new ≡ flushed_of self.old)
            × (names_of self.new ≡ names_of self.old)) }
        ensures cause { RisesWhere (IsErrOf result OutFault.Failed) (calls_of self.old).faults (calls_of self.new).faults }
    {
        self.calls.begin()?;
        let kept = match name {
            None => None,
            Some(name) => Some(Listed::from_slice(self.alloc, name.as_bytes())?),
        };
        self.names.push(kept)?;
        self.written = Listed::new(self.alloc);
        self.flushed = 0;
        Ok(())
    }

    fn write(&mut self, piece: &[u8]) -> Result<usize, OutFault>
        ensures counted { CountsCall (calls_of self.old) (calls_of self.new) }
        ensures failing { IsErrOf result OutFault.Failed ↔ NextFails (calls_of self.old) }
        ensures whole { IfOk result (λ count. count ≡ length piece.now) }
        ensures bytes { OnOk result (written_of self.new ≡ written_of self.old ++ piece.now) }
        ensures refused { OnErr result (written_of self.new ≡ written_of self.old) }
        ensures flushed { flushed_of self.new ≡ flushed_of self.old }
        ensures names { names_of self.new ≡ names_of self.old }
        ensures cause { RisesWhere (IsErrOf result OutFault.Failed) (calls_of self.old).faults (calls_of self.new).faults }
    {
        self.calls.begin()?;
        self.written.append(piece)?;
        Ok(piece.len())
    }

    fn flush(&mut self) -> Result<(), OutFault>
        ensures counted { CountsCall (calls_of self.old) (calls_of self.new) }
        ensures failing { IsErrOf result OutFault.Failed ↔ NextFails (calls_of self.old) }
        ensures needs_no_memory { OnErr result (IsErrOf result OutFault.Failed) }
        ensures all { OnOk result (flushed_of self.new ≡ length (written_of self.new)) }
        ensures bytes { written_of self.new ≡ written_of self.old }
        ensures names { names_of self.new ≡ names_of self.old }
        ensures refused { OnErr result (flushed_of self.new ≡ flushed_of self.old) }
        ensures cause { RisesWhere (IsErrOf result OutFault.Failed) (calls_of self.old).faults (calls_of self.new).faults }
    {
        self.calls.begin()?;
        self.flushed = self.written.len();
        Ok(())
    }
}
