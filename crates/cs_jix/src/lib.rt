//! Join indexes (C-Store, VLDB 2005): for each storage key of a segment, where another projection stores the row.
#![tactic(auto)]

pub mod index;
pub mod reading;
pub mod writing;

pub use index::JoinIndex;
pub use reading::{read_jix, read_jix_text};
pub use writing::write_jix;
