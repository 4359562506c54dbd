//! A message of which some blocks have been hashed.
ghost use Rattle.std.specs.Prelude.{◌≡◌, ◌*◌, ◌+◌, ◌-◌, ◌/◌, ◌≤◌, length};
ghost use Rattle.sha2.specs.Sha256.{hash_after, initial_hash_256, sha256};

use crate::constants::{BLOCK, INITIAL_HASH};
use crate::finishing::finish;

/// A message and the hash value after some of its blocks.
#[derive(Clone, Copy, Drop)]
pub struct Chain<'a> {
    pub text: &'a [u8],
    /// The number of blocks that have been hashed.
    pub done: usize,
    /// The hash value after them.
    pub hash: [u32; 8],
    ghost within: { done * 64 ≤ length text.now },
    ghost taken: { hash ≡ hash_after initial_hash_256 text.now done },
}

impl<'a> Chain<'a> {
    /// A message of which nothing has been hashed.
    pub fn new(text: &'a [u8]) -> Self
        ensures { result.text.now ≡ text.now }
    {
        Chain {
            text,
            done: 0,
            hash: INITIAL_HASH,
        }
    }

    /// The number of whole blocks that are left.
    pub fn left(&self) -> usize
        ensures { result ≡ length self.now.text.now / 64 - self.now.done }
    {
        self.text.len() / BLOCK - self.done
    }

    /// The message after `blocks` more blocks, with the hash value after them.
    pub fn after(self, blocks: usize, hash: [u32; 8]) -> Self
        requires within { (self.done + blocks) * 64 ≤ length self.text.now }
        requires taken { hash ≡ hash_after initial_hash_256 self.text.now (self.done + blocks) }
        ensures { result.text.now ≡ self.entry.text.now }
    {
        Chain {
            text: self.text,
            done: self.done + blocks,
            hash,
        }
    }

    /// The digest of the message.
    pub fn digest(&self) -> [u8; 32]
        ensures { result ≡ sha256 self.now.text.now }
    {
        finish(self.hash, self.text, self.done)
    }
}
