//! Reading and writing the files of a store in parallel.
//!
//! The results are those of reading or writing one file after the other; threads only share the work.
#![tactic(auto)]

mod batch_sink;
mod dealing;
mod loading;
mod reading_ahead;
mod shared;
mod writing_ahead;

pub use batch_sink::{BatchSink, FileWriter, NoWriter};
pub use dealing::dealt;
pub use loading::{load_readable_side_by_side, load_side_by_side};
pub use reading_ahead::{ReadAhead, read_ahead};
pub use shared::SharedSource;
pub use writing_ahead::save_batch;
