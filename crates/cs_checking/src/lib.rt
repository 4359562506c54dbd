//! The verb `check`: whether a store is sound, how many of its sites may fail, and which of its files are bad.
#![tactic(auto)]

mod checking;
mod judging;

pub use checking::check;
