// Reading a whole text.
ghost use Rattle.std.specs.Prelude.{◌≡◌, ◌≤◌, ◌<◌, ◌⊎◌, length, IfOk, OnOk, IfSome, IsErrOf};
ghost use Rattle.std.specs.Io.KnownBytes.{IsAtEnd};
ghost use Rattle.outside_io.specs.Faults.{RisesWhere};
ghost use Rattle.outside_io.specs.Outputs.{IsUnread};

use crate::files::{Files, OutFault};
use std::alloc::Global;
use symbols::{Listed, Memory};

/// Why a text was not read.
#[derive(Clone, Copy, Debug, PartialEq, Eq)]
pub enum ReadStop {
    /// The outside failed, and its count of faults rose.
    Failed,
    /// There are more bytes than were allowed.
    TooLarge,
    /// Memory could not be had.
    Memory,
}

impl From<OutFault> for ReadStop {
    ghost use Rattle.outside_io.specs.Stops.{stop_of};

    ghost from_gives = { λ fault stop. stop ≡ stop_of fault };

    fn from(fault: OutFault) -> Self {
        match fault {
            OutFault::Failed => ReadStop::Failed,
            OutFault::Memory => ReadStop::Memory,
        }
    }
}

impl From<Memory> for ReadStop {
    ghost use Rattle.outside_io.specs.declared.reading.ReadStop.TheVariants.{Memory as MemoryStop};

    ghost from_gives = { λ _ stop. stop ≡ MemoryStop };

    fn from(_: Memory) -> Self {
        ReadStop::Memory
    }
}

// How many bytes are asked for at once.
const PIECE: usize = 65536;

/// Opens the input of this name and reads it to its end, where it has at most `most` bytes.
///
/// After a refusal the input may be read in part; the next opening begins anew.
pub fn read_text<F: Files>(
    alloc: Global,
    files: &mut F,
    name: &str,
    most: usize,
) -> Result<Listed<u8>, ReadStop>
    // The whole text of the name, and no more is left.
    ensures whole { IfOk result (λ read. IfSome ((F.tells files.old).text name.now) (λ text. read ≡ text)) }
    ensures ended { OnOk result (IsAtEnd (F.tells files.new).left) }
    ensures taken { IfOk result (λ read. (F.tells files.new).taken ≡ length read) }
    ensures within { IfOk result (λ read. length read ≤ most) }

    // Too large exactly where more bytes were taken than are allowed, which no longer text can hide.
    ensures too_large { IsErrOf result ReadStop.TooLarge → most < (F.tells files.new).taken }
    ensures too_long { IsErrOf result ReadStop.TooLarge → IfSome ((F.tells files.old).text name.now) (λ text. (F.tells files.new).taken ≤ length text) }
    ensures stopped { IsErrOf result ReadStop.Failed ⊎ IsErrOf result ReadStop.Memory
        → ((F.tells files.new).taken ≤ most) ⊎ IsUnread (F.tells files.old) (F.tells files.new) }

    ensures texts { (F.tells files.new).text ≡ (F.tells files.old).text }
    ensures cause { RisesWhere (IsErrOf result ReadStop.Failed) (F.tells files.old).faults (F.tells files.new).faults }
{
    files.open_file(name)?;
    let mut text = Listed::new(alloc);
    let mut buf = [0u8; PIECE];
    loop {
        let count = files.read(&mut buf)?;
        if count == 0 {
            return Ok(text);
        }
        if count > most - text.len() {
            return Err(ReadStop::TooLarge);
        }
        text.append(&buf[..count])?;
    }
}
