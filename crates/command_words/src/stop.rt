//! Why words give no settings.
use symbols::Memory;

/// Why words give no settings.
#[derive(Clone, Copy, Debug, PartialEq, Eq)]
pub enum WordsStop {
    /// The words are not the command's.
    Usage,
    Memory,
}

impl From<Memory> for WordsStop {
    fn from(_: Memory) -> Self {
        WordsStop::Memory
    }
}
