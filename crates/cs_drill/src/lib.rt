//! The test of restores: each loss of at most so many sites is rebuilt from the other files, in memory, and compared with what
//! stands.
//!
//! A store that is sound passes it by proof: what a drill can find is a store that isn't, or that something else is broken
//! than its files.
#![tactic(auto)]

mod comparing;
mod drilling;
mod standing;
mod trial;
mod trying;

pub use drilling::{Watch, drill};
pub use trial::{Outcome, Rebuilt, Trial};
