// An output: it is opened under a name or none, and is written from its front.
ghost use Rattle.std.specs.Prelude.{◌≡◌, ◌<◌, length, OnOk, OnErr, IfOk, IsErrOf};
ghost use Rattle.std.specs.Option.{option_copied};
ghost use Rattle.std.specs.Io.{WritesAtMost};
ghost use Rattle.std.specs.Io.KnownBytes.{WriteAppends};
ghost use Rattle.outside_io.specs.Faults.{RisesWhere};
ghost use Rattle.outside_io.specs.Outputs.{Output, IsUntouched};
ghost use Rattle.outside_io.specs.Told.{StartsEmpty, AddsName, FlushesAll};

use crate::files::OutFault;

/// An output that takes bytes.
pub trait Sink {
    /// What it tells: its bytes since the last opening, how many were flushed, its openings, and how many calls
    /// have failed.
    ghost tells: { Self → Output };

    /// Starts the output of this name with nothing written, or without a name one that keeps nothing.
    fn open_sink(&mut self, name: Option<&str>) -> Result<(), OutFault>
        ensures empty { OnOk result (StartsEmpty (tells self.old).written (tells self.new).written (tells self.new).flushed) }
        ensures names { OnOk result (AddsName (tells self.old).opened (tells self.new).opened (option_copied name.entry)) }
        ensures refused { OnErr result (IsUntouched (tells self.old) (tells self.new)) }
        ensures cause { RisesWhere (IsErrOf result OutFault.Failed) (tells self.old).faults (tells self.new).faults };

    /// Writes a front of the piece: at least one byte of a piece that is not empty.
    fn write(&mut self, piece: &[u8]) -> Result<usize, OutFault>
        ensures bound { WritesAtMost result piece.now }
        ensures some { IfOk result (λ count. 0 < length piece.now → 0 < count) }
        ensures bytes { WriteAppends (tells self.old).written (tells self.new).written result piece.now }
        ensures refused { OnErr result ((tells self.new).written ≡ (tells self.old).written) }
        ensures flushed { (tells self.new).flushed ≡ (tells self.old).flushed }
        ensures names { (tells self.new).opened ≡ (tells self.old).opened }
        ensures cause { RisesWhere (IsErrOf result OutFault.Failed) (tells self.old).faults (tells self.new).faults };

    /// Hands on all that was written.
    fn flush(&mut self) -> Result<(), OutFault>
        ensures all { OnOk result (FlushesAll (tells self.new).written (tells self.new).flushed) }
        ensures bytes { (tells self.new).written ≡ (tells self.old).written }
        ensures names { (tells self.new).opened ≡ (tells self.old).opened }
        ensures refused { OnErr result ((tells self.new).flushed ≡ (tells self.old).flushed) }
        ensures cause { RisesWhere (IsErrOf result OutFault.Failed) (tells self.old).faults (tells self.new).faults };
}
