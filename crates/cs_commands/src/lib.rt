//! The commands of the recovery tool for scripts: `recover` and `check`.
//!
//! The library does the work; this crate has the words of the command line, finds stores, and has the texts and
//! statuses.
#![tactic(auto)]

mod folders;
mod places;
mod program;
mod request;
pub mod sample;
mod stop;

pub use folders::Folders;
pub use places::Places;
pub use program::run;
pub use stop::{Stop, report};
