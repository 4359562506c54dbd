//! File sets: loading them from a source and saving them to a sink.
//!
//! A file set is a finite map from names to bytes. `load` and `save` are proved to make exactly the calls that their
//! contracts list, in that order, whatever the source or the sink answers.
#![tactic(auto)]

mod fault;
pub mod file_set;
mod loading;
pub mod memory;
mod readable;
mod saving;
mod sink;
mod source;

pub use fault::{Fault, StoreFault};
pub use file_set::FileSet;
pub use loading::load;
pub use readable::{Readable, load_readable};
pub use saving::save;
pub use sink::Sink;
pub use source::Source;
