//! The rows of a table, read from CSV and written as CSV (RFC 4180).
#![tactic(auto)]

mod columns;
mod excerpt;
mod fault;
mod header;
pub mod laws;
mod read;
mod record;
mod source;
mod words;
mod write;

pub use excerpt::Excerpt;
pub use fault::{CsvFault, FieldFault, RecordFault};
pub use read::read_rows;
pub use words::CsvWords;
pub use write::write_rows;
