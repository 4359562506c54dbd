//! Manifests: the SHA-256 digests of a store's files, as `sha256sum` writes and reads them.
//!
//! A manifest has a line for each file: its digest in hexadecimal, two spaces and its path. `catalog.toml` comes first, then
//! the files of the catalog, ascending by name.
#![tactic(auto)]

mod comparing;
mod digesting;
mod digesting_ahead;
mod fault;
pub mod laws;
mod line;
mod manifest;
mod reading;
mod writing;

pub use comparing::{Comparison, Difference, compare};
pub use digesting::{Digested, digest_files, digest_of};
pub use fault::ManifestFault;
pub use line::CATALOG;
pub use manifest::Manifest;
pub use reading::read_manifest;
pub use writing::write_manifest;
