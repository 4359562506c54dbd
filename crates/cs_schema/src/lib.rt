//! The base of a column store: its catalog, its cells, the names of its files, and losses of sites.
//!
//! A `Catalog` is what a document that keeps every rule says. The crate also has the definitions of table, order and
//! segment that the layers above use, with their laws (`laws`).
#![tactic(auto)]

mod appending;
mod catalog;
mod cells;
mod ends;
mod file_name;
mod ints;
mod kinds;
pub mod laws;
pub mod limits;
mod lookups;
mod loss;
pub mod samples;
mod texts;
mod word;

pub use catalog::{Catalog, Column, Projection};
pub use cells::{Cells, Value};
pub use file_name::FileName;
pub use kinds::{Code, Kind, Safety};
pub use loss::Loss;
pub use texts::Texts;
pub use word::{Word, WordFault};
