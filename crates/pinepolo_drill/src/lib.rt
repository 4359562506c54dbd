//! The verb `drill`: it rebuilds each loss of a few sites of a store in memory, and compares it with what stands.
#![tactic(auto)]

mod drilling;
mod meter;

pub use drilling::drill;
