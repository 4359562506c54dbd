//! Segment files, and the digest at the end of each file of a store.
//!
//! Files are sealed: each ends with the SHA-256 digest of the bytes before it. Reading is exact: bytes are the file of
//! exactly one base, or `Damaged`. Writing the columns of a base gives that file.
#![tactic(auto)]

pub mod bodies;
pub mod bytes;
pub mod fault;
pub mod format;
mod hashing_buffer;
pub mod laws;
pub mod parallel_read;
mod reader;
pub mod seal;
pub mod segment;
pub mod segment_writer;
pub mod writing;

pub use fault::FileFault;
pub use parallel_read::{par_read_segment, par_read_text};
pub use segment::{Segment, read_segment, read_text};
pub use segment_writer::SegmentWriter;
pub use writing::write_segment;
