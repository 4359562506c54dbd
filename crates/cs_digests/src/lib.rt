//! SHA-256 digests (FIPS 180-4) of several messages at once, or of one that grows.
//!
//! A digest is a chain: each step needs the one before it. Four chains go through the same steps, so one step of all
//! four is one operation on vectors of four words, a lane for each message. The message schedule of a single message
//! needs no earlier step, so it is computed the same way for four of its blocks.
#![tactic(auto)]

mod chain;
mod constants;
mod digests;
mod finishing;
mod four;
mod lanes;
mod rounds;
mod schedule;
mod single;
mod taking;
#[cfg(test)]
mod tests;
mod words;

pub use digests::digests_of;
pub use taking::{GrowingDigest, digest_of};
