// Inputs in memory, with calls that fail by number.
ghost use Rattle.std.specs.Prelude.{◌≡◌, ◌≤◌, ◌+◌, ◌↔◌, ◌⊎◌, min, length, take, Some, IfOk, OnOk, OnErr, IsErrOf, IsNone, []};
ghost use Rattle.std.specs.Option.{option_copied};
ghost use Rattle.std.specs.Io.{ReadsAtMost};
ghost use Rattle.std.specs.Io.KnownBytes.{ReadConsumes};
ghost use Rattle.outside_io.specs.Faults.{RisesWhere};
ghost use Rattle.outside_io.specs.Held.{entry_of, held_under};
ghost use Rattle.outside_io.specs.Numbered.{NextFails, CountsCall, IsFresh};

use crate::calls::Calls;
use crate::files::{Files, OutFault};
use crate::memory_file::MemoryFile;
use std::alloc::Global;
use symbols::{Listed, Memory};

/// Inputs that lie in memory. Of two entries of one name the first is the one held.
#[derive(Debug, Drop)]
pub struct MemoryFiles {
    alloc: Global,
    files: Listed<MemoryFile>,
    calls: Calls,
    opened: Listed<u8>,
    at: usize,
    ghost within: { at ≤ length opened },
}

impl MemoryFiles {
    ghost use Rattle.outside_io.specs.MemoryFiles.{calls_of, text_of, left_of, taken_of};

    /// Holds these inputs, of which none is open yet: nothing is left to read. The calls of the numbers
    /// in `failing` fail, from 1 over all kinds; so does an opening under a name that is not held.
    pub fn new(
        alloc: Global,
        files: Listed<MemoryFile>,
        failing: Listed<u64>,
    ) -> Result<MemoryFiles, Memory>
        ensures texts { IfOk result (λ made. text_of made ≡ held_under files) }
        ensures closed { IfOk result (λ made. left_of made ≡ []) }
        ensures untaken { IfOk result (λ made. taken_of made ≡ 0) }
        ensures calls { IfOk result (λ made. IsFresh (calls_of made) failing) }
    {
        Ok(MemoryFiles {
            alloc,
            files,
            calls: Calls::new(failing),
            opened: Listed::new(alloc),
            at: 0,
        })
    }
}

impl Files for MemoryFiles {
    ghost use Rattle.outside_io.specs.MemoryFiles.{calls_of, text_of, left_of, taken_of};

    ghost tells = { λ files. record { text = text_of files; left = Some (left_of files); taken = taken_of files; faults = (calls_of files).faults } };

    fn open_file(&mut self, name: &str) -> Result<(), OutFault>
        ensures counted { CountsCall (calls_of self.old) (calls_of self.new) }
        ensures failing { NextFails (calls_of self.old) → IsErrOf result OutFault.Failed }
        ensures missing { IsNone (text_of self.old name.now) → IsErrOf result OutFault.Failed }
        ensures only { IsErrOf result OutFault.Failed → NextFails (calls_of self.old) ⊎ IsNone (text_of self.old name.now) }
        ensures opened { OnOk result (text_of self.old name.now ≡ Some (left_of self.new)) }
        ensures untaken { OnOk result (taken_of self.new ≡ 0) }
        ensures texts { text_of self.new ≡ text_of self.old }
        ensures refused { OnErr result ((left_of self.new ≡ left_of self.old) × (taken_of self.new ≡ taken_of self.old)) }
        ensures cause { RisesWhere (IsErrOf result OutFault.Failed) (calls_of self.old).faults (calls_of self.new).faults }
    {
        self.calls.begin()?;
        let Some(file) = entry(self.files.items(), name.as_bytes()) else {
            return Err(self.calls.faults.failed());
        };
        self.opened = Listed::from_slice(self.alloc, file.bytes.items())?;
        self.at = 0;
        Ok(())
    }

    fn read(&mut self, buf: &mut [u8]) -> Result<usize, OutFault>
        ensures counted { CountsCall (calls_of self.old) (calls_of self.new) }
        ensures failing { IsErrOf result OutFault.Failed ↔ NextFails (calls_of self.old) }
        ensures needs_no_memory { OnErr result (IsErrOf result OutFault.Failed) }
        ensures bound { ReadsAtMost result buf.new }
        ensures most { IfOk result (λ count. count ≡ min (length (left_of self.old)) (length buf.old)) }
        ensures bytes { ReadConsumes (Some (left_of self.old)) (Some (left_of self.new)) result buf.new }
        ensures taken { IfOk result (λ count. taken_of self.new ≡ taken_of self.old + count) }
        ensures texts { text_of self.new ≡ text_of self.old }
        ensures refused { OnErr result ((left_of self.new ≡ left_of self.old) × (taken_of self.new ≡ taken_of self.old)) }
        ensures cause { RisesWhere (IsErrOf result OutFault.Failed) (calls_of self.old).faults (calls_of self.new).faults }
    {
        self.calls.begin()?;
        let count = copy_front(&self.opened.items()[self.at..], buf);
        self.at += count;
        Ok(count)
    }
}

// The first entry of a name.
fn entry<'a>(files: &'a [MemoryFile], name: &[u8]) -> Option<&'a MemoryFile>
    ensures { option_copied result ≡ entry_of files.now name.now }
{
    files.iter().find(|file| file.name.items() == name)
}

// Copies as much of what is left as the buffer takes.
fn copy_front(left: &[u8], buf: &mut [u8]) -> usize
    ensures count { result ≡ min (length left.now) (length buf.old) }
    ensures front { take result buf.new ≡ take result left.now }
{
    let count = left.len().min(buf.len());
    buf[..count].copy_from_slice(&left[..count]);
    count
}
