//! A buffer that is hashed while it is appended to.
ghost use Rattle.std.specs.Prelude.{◌≡◌, ◌++◌, ℕ, List, IfOk, OnOk};
ghost use Rattle.cs_segment.specs.SegmentFile.{sealed};
ghost use Rattle.cs_digests.specs.Growing.{HasTaken, HasTakenAll};

use crate::seal::DIGEST;
use cs_digests::GrowingDigest;
use std::alloc::AllocError;
use std::marker::Model;
use std::thread::{Threads, join_mut};

/// The smallest number of appended bytes for which a thread is started.
const WORTH_THREADS: usize = 65_536;

/// Bytes, and the unfinished digest of some of the first of them.
#[derive(Drop)]
pub struct HashingBuffer {
    bytes: Vec<u8>,
    digest: GrowingDigest,
}

impl Model for HashingBuffer {
    ghost use Rattle.std.specs.Prelude.{List, ℕ};

    ghost Value = { List ℕ };

    ghost use Rattle.cs_segment.specs.SegmentWriter.{buffer_bytes, IsDigested};

    ghost view = { buffer_bytes };

    ghost invariant = { IsDigested };
}

/// Appends bytes and hashes them at the same time, after hashing what the buffer already has. If memory is refused, the
/// digest may have taken bytes that the buffer lacks.
fn extend_both<R: Threads>(
    rt: &R,
    text: &mut Vec<u8>,
    digest: &mut GrowingDigest,
    bytes: &[u8],
) -> Result<(), AllocError>
    requires { HasTaken digest.old text.old.items }
    ensures text { OnOk result (text.new.items ≡ text.old.items ++ bytes.now) }
    ensures digest { HasTaken digest.new (text.old.items ++ bytes.now) }
{
    digest.take_in(text);
    let (put, _) = join_mut(
        rt,
        &mut || -> Result<(), AllocError>
            ensures { OnOk result (text.exit.now.items ≡ text.entry.now.items ++ bytes.entry.now) }
        { text.extend_from_slice(bytes) },
        &mut || -> ()
            requires { (m : List ℕ) × HasTakenAll digest.now m }
            ensures { (m : List ℕ) → HasTakenAll digest.entry.now m → HasTaken digest.exit.now (m ++ bytes.entry.now) }
        { digest.take_more(bytes) },
    );
    put
}

impl HashingBuffer {
    /// A buffer with these bytes, none of which is hashed yet.
    pub fn new(bytes: Vec<u8>) -> Self
        ensures { result ≡ bytes.items }
    {
        HashingBuffer {
            bytes,
            digest: GrowingDigest::new(),
        }
    }

    /// Reserves room for `count` more bytes and the digest, so that appending them does not move the buffer.
    pub fn reserve(&mut self, count: usize) -> Result<(), AllocError>
        ensures { self.new ≡ self.old }
    {
        self.bytes.reserve(count.saturating_add(DIGEST))
    }

    /// Appends bytes and then hashes them.
    pub fn extend(&mut self, bytes: &[u8]) -> Result<(), AllocError>
        ensures { OnOk result (self.new ≡ self.old ++ bytes.now) }
    {
        let put = self.bytes.extend_from_slice(bytes);
        self.digest.take_in(&self.bytes);
        put
    }

    /// Appends bytes. 64 KiB or more are hashed at the same time, by a second thread.
    pub fn extend_beside<R: Threads>(&mut self, rt: &R, bytes: &[u8]) -> Result<(), AllocError>
        ensures { OnOk result (self.new ≡ self.old ++ bytes.now) }
    {
        if bytes.len() < WORTH_THREADS {
            return self.extend(bytes);
        }
        let put = extend_both(rt, &mut self.bytes, &mut self.digest, bytes);
        if put.is_err() {
            // the digest may have taken bytes that the buffer lacks
            self.digest = GrowingDigest::new();
        }
        put
    }

    /// The bytes, followed by their SHA-256 digest.
    pub fn sealed(self) -> Result<Vec<u8>, AllocError>
        ensures { IfOk result (λ out. out.items ≡ sealed self) }
    {
        let HashingBuffer { bytes, digest } = self;
        let mut bytes = bytes;
        let end = digest.digest(&bytes);
        bytes.extend_from_slice(&end)?;
        Ok(bytes)
    }
}
