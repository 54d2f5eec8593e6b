//! The outside as traits: a shelf of files, a sink of bytes and a gate.
//!
//! In come the calls of a search that knows no system: open and read a file by its name, write bytes, pass a gate. Out
//! go the bytes, or `Failed`, which never comes without a cause that contracts can name: a count of faults that rose, or
//! a file that is not there. `MemoryShelf` and `MemorySink` report all of their content and fail where they are told to.
//!
//! The program reads by a `FileShelf`, over anything that opens files by their names (`OpenNamed`). Of `MemoryFiles`
//! contracts know every byte. Of `SystemFiles` they know none: its one call of the system is trusted. `StdSink` is a
//! stream of the system.
#![tactic(auto)]

mod calls;
mod edges;
mod file_shelf;
mod interrupts;
mod laws;
mod memory_files;
mod memory_shelf;
mod memory_sink;
mod system;

pub use edges::{Failed, Gate, OpenGate, Shelf, Sink};
pub use file_shelf::{FileShelf, OpenNamed};
pub use laws::{
    counts_of_faults_stay_at_their_last_value, files_are_found_by_their_whole_name,
    reads_and_writes_are_as_long_as_can_be,
};
pub use memory_files::MemoryFiles;
pub use memory_shelf::MemoryShelf;
pub use memory_sink::{Memory, MemorySink};
pub use system::{StdSink, SystemFiles};
