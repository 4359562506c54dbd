//! The catalog of a store, read from its text.
//!
//! A catalog is read exactly: the reader answers what the text says if it keeps every rule, and otherwise the first
//! rule that it breaks. `explain` answers the same rule with a description.
#![tactic(auto)]

mod build;
mod cuts;
mod document;
mod explained;
mod fault;
mod head;
mod keys;
mod lookups;
mod names;
mod problem;
mod projection_rules;
mod read;
mod rules;

pub use explained::{Explanation, explain};
pub use fault::CatalogFault;
pub use read::read_catalog;
