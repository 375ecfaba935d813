// Named inputs: one is open at a time, and is read from its front to its end.
ghost use Rattle.std.specs.Prelude.{◌≡◌, ◌+◌, OnOk, OnErr, IfOk, IsErrOf};
ghost use Rattle.std.specs.Io.{ReadsAtMost};
ghost use Rattle.std.specs.Io.KnownBytes.{ReadConsumes};
ghost use Rattle.outside_io.specs.Faults.{RisesWhere};
ghost use Rattle.outside_io.specs.Outputs.{Input, IsUnread};
ghost use Rattle.outside_io.specs.Told.{LeavesAll};

use symbols::Memory;

/// Why a call of the outside was refused. A refused call changes nothing but the count of faults.
#[derive(Clone, Copy, Debug, PartialEq, Eq)]
pub enum OutFault {
    /// The outside failed, and the count of faults rose.
    Failed,
    /// Memory could not be had.
    Memory,
}

impl From<Memory> for OutFault {
    ghost use Rattle.outside_io.specs.declared.files.OutFault.TheVariants.{Memory as MemoryFault};

    ghost from_gives = { λ _ fault. fault ≡ MemoryFault };

    fn from(_: Memory) -> Self {
        OutFault::Memory
    }
}

/// Inputs that are opened by name.
pub trait Files {
    /// What they tell: the text under each name, what is left and how much was read of the open one, and how many
    /// calls have failed.
    ghost tells: { Self → Input };

    /// Opens the input of this name, to be read from its front.
    fn open_file(&mut self, name: &str) -> Result<(), OutFault>
        ensures opened { OnOk result (LeavesAll ((tells self.old).text name.now) (tells self.new).left) }
        ensures untaken { OnOk result ((tells self.new).taken ≡ 0) }
        ensures texts { (tells self.new).text ≡ (tells self.old).text }
        ensures refused { OnErr result (IsUnread (tells self.old) (tells self.new)) }
        ensures cause { RisesWhere (IsErrOf result OutFault.Failed) (tells self.old).faults (tells self.new).faults };

    /// Reads a front of what is left into the front of the buffer: at least one byte where the buffer
    /// has room and any byte is left.
    fn read(&mut self, buf: &mut [u8]) -> Result<usize, OutFault>
        ensures bound { ReadsAtMost result buf.new }
        ensures bytes { ReadConsumes (tells self.old).left (tells self.new).left result buf.new }
        ensures counted { IfOk result (λ count. (tells self.new).taken ≡ (tells self.old).taken + count) }
        ensures texts { (tells self.new).text ≡ (tells self.old).text }
        ensures refused { OnErr result (IsUnread (tells self.old) (tells self.new)) }
        ensures cause { RisesWhere (IsErrOf result OutFault.Failed) (tells self.old).faults (tells self.new).faults };
}
