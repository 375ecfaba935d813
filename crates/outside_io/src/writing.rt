// Writing a whole piece.
ghost use Rattle.std.specs.Prelude.{◌≡◌, OnOk, OnErr, IsErrOf};
ghost use Rattle.std.specs.Io.KnownBytes.{Appends};
ghost use Rattle.outside_io.specs.Faults.{RisesWhere};
ghost use Rattle.outside_io.specs.Told.{AppendsFront, AppendsSome, FlushesAll};

use crate::files::OutFault;
use crate::sink::Sink;

/// Writes the whole piece. A refusal leaves a front of it written, so an empty piece is never refused.
pub fn write_all<S: Sink>(sink: &mut S, piece: &[u8]) -> Result<(), OutFault>
    ensures whole { OnOk result (Appends (S.tells sink.old).written (S.tells sink.new).written piece.now) }
    ensures front { OnErr result (AppendsFront (S.tells sink.old).written (S.tells sink.new).written piece.now) }
    ensures flushed { (S.tells sink.new).flushed ≡ (S.tells sink.old).flushed }
    ensures names { (S.tells sink.new).opened ≡ (S.tells sink.old).opened }
    ensures cause { RisesWhere (IsErrOf result OutFault.Failed) (S.tells sink.old).faults (S.tells sink.new).faults }
{
    let mut at = 0;
    while at < piece.len() {
        at += sink.write(&piece[at..])?;
    }
    Ok(())
}

/// Writes the whole piece, and flushes it and all that was written before it. After a refusal a front of the piece
/// is written, all of it where the flush was refused, and nothing more is flushed.
pub fn write_last<S: Sink>(sink: &mut S, piece: &[u8]) -> Result<(), OutFault>
    ensures whole { OnOk result (Appends (S.tells sink.old).written (S.tells sink.new).written piece.now) }
    ensures flushed { OnOk result (FlushesAll (S.tells sink.new).written (S.tells sink.new).flushed) }
    ensures front { OnErr result (AppendsSome (S.tells sink.old).written (S.tells sink.new).written piece.now) }
    ensures unflushed { OnErr result ((S.tells sink.new).flushed ≡ (S.tells sink.old).flushed) }
    ensures names { (S.tells sink.new).opened ≡ (S.tells sink.old).opened }
    ensures cause { RisesWhere (IsErrOf result OutFault.Failed) (S.tells sink.old).faults (S.tells sink.new).faults }
{
    match write_all(sink, piece) {
        Ok(()) => {}
        Err(fault) => return Err(fault),
    }
    sink.flush()
}
