//! The digest of a message that grows, computed as its bytes arrive.
ghost use Rattle.std.specs.Prelude.{◌≡◌, ℕ, List, ◌+◌, ◌*◌, ◌≤◌, ◌++◌, length, drop};
ghost use Rattle.sha2.specs.Sha256.{sha256};
ghost use Rattle.cs_digests.specs.Growing.{HasTaken, HasTakenAll};

use crate::constants::{BLOCK, INITIAL_HASH};
use crate::finishing::finish;
use crate::single::absorb;
use arrayvec::ArrayVec;

/// The hash value after the whole blocks at the front of a message, and their number.
#[derive(Drop)]
pub struct GrowingDigest {
    done: usize,
    words: [u32; 8],
    /// The bytes after these blocks, if all bytes so far have been hashed.
    rest: ArrayVec<u8, 64>,
}

/// A block made of two parts.
fn block_of(front: &[u8], end: &[u8]) -> ArrayVec<u8, 64>
    requires { length front.now + length end.now ≤ 64 }
    ensures { result.items ≡ front.now ++ end.now }
{
    let mut block = ArrayVec::new();
    let begun = block.try_extend_from_slice(front);
    let ended = block.try_extend_from_slice(end);
    match (begun, ended) {
        (Ok(()), Ok(())) => block,
        _ => unreachable!(),
    }
}

/// What follows the first `done` blocks of a message.
fn rest_after(message: &[u8], done: usize) -> &[u8]
    requires { done * 64 ≤ length message.now }
    ensures { result.now ≡ drop (done * 64) message.now }
{
    &message[BLOCK * done..]
}

impl GrowingDigest {
    /// Nothing has been hashed.
    pub fn new() -> Self
        ensures { (m : List ℕ) → HasTaken result m }
    {
        GrowingDigest {
            done: 0,
            words: INITIAL_HASH,
            rest: ArrayVec::new(),
        }
    }

    /// Hashes the rest of the message.
    pub fn take_in(&mut self, message: &[u8])
        requires { HasTaken self.old message.now }
        ensures { HasTakenAll self.new message.now }
    {
        let left = rest_after(message, self.done);
        absorb(&mut self.words, left);
        self.done += left.len() / BLOCK;
        self.rest = block_of(rest_after(message, self.done), &[]);
    }

    /// Hashes bytes that follow a fully hashed message, up to the end of a block.
    pub fn take_more(&mut self, bytes: &[u8])
        requires { (m : List ℕ) × HasTakenAll self.old m }
        ensures { (m : List ℕ) → HasTakenAll self.old m → HasTaken self.new (m ++ bytes.now) }
    {
        let missing = BLOCK - self.rest.len();
        if bytes.len() < missing {
            return;
        }
        let (end, others) = bytes.split_at(missing);
        let block = block_of(&self.rest, end);
        absorb(&mut self.words, &block);
        absorb(&mut self.words, others);
        self.done += 1 + others.len() / BLOCK;
    }

    /// The digest of the message.
    pub fn digest(&self, message: &[u8]) -> [u8; 32]
        requires { HasTaken self.now message.now }
        ensures { result ≡ sha256 message.now }
    {
        finish(self.words, message, self.done)
    }
}

/// The digest of a message.
pub fn digest_of(message: &[u8]) -> [u8; 32]
    ensures { result ≡ sha256 message.now }
{
    GrowingDigest::new().digest(message)
}
