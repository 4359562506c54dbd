//! What the tests of several crates need: files of stores, written by hand without the library's encoders, and edits of
//! catalogs, files and file sets.
#![tactic(auto)]

pub mod catalogs;
pub mod columns;
pub mod file_sets;
pub mod files;
pub mod samples;
pub mod stores;
