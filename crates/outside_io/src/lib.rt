//! The outside: named inputs to read and an output to write, each with a count of its faults.
//!
//! `Files` and `Sink` are all that the other crates know of the outside. A call of theirs answers `Failed`
//! exactly where its count of faults rose, and a call that is refused changes nothing. `read_text` reads
//! a whole text, `write_all` writes a whole piece, and `write_last` flushes it too. What an input or an output tells
//! is one record of plain data, so that what is said of a whole run names no trait. `MemoryFiles` and `MemorySink` tell all of their bytes
//! and fail where they are told to; `HostFiles` and `HostSink` are the real files and streams, which tell
//! nothing. Stands on `symbols` alone.
#![tactic(auto)]

mod calls;
mod fault_count;
mod files;
mod host_files;
mod host_sink;
mod memory_file;
mod memory_files;
mod memory_sink;
mod reading;
mod sink;
mod writing;

pub use files::{Files, OutFault};
pub use host_files::HostFiles;
pub use host_sink::HostSink;
pub use memory_file::MemoryFile;
pub use memory_files::MemoryFiles;
pub use memory_sink::MemorySink;
pub use reading::{ReadStop, read_text};
pub use sink::Sink;
pub use writing::{write_all, write_last};
