//! Inspection of each file of a store by itself: which files are bad, and why.
//!
//! It needs neither a walk nor a table, so it works on a store that cannot be recovered. It does not find whether a
//! sound file agrees with the table.
#![tactic(auto)]

pub mod badness;
mod damage;
mod inspect;
pub mod laws;

pub use badness::Badness;
pub use inspect::{bad_files, bad_survivors};
