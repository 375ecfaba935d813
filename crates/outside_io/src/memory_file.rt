// An input in memory.
use symbols::Listed;

/// A name and the bytes held under it.
#[derive(Debug, Drop)]
pub struct MemoryFile {
    pub name: Listed<u8>,
    pub bytes: Listed<u8>,
}
