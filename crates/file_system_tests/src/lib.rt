//! Tests of the order of the calls by which files and folders are changed, over a file system in memory that remembers each.
//!
//! What `FileSystem` says of the calls that were made is true of `MemoryFiles`, and of one list: its own.
#![tactic(auto)]

mod events;
mod failing;
mod log;
mod memory;
mod open_file;
#[cfg(test)]
mod tests;

pub use events::{Event, What};
pub use failing::Failing;
pub use log::Log;
pub use memory::MemoryFiles;
pub use open_file::MemoryFile;
