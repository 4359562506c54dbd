//! The digest that ends a file, and the one that should.
ghost use Rattle.std.specs.Prelude.{◌<◌, length, IfSome, IfNone};
ghost use Rattle.cs_file_decode.specs.Reports.{AreDigestsOf};

use cs_segment::seal::DIGEST;
use sha2::{Digest, Sha256};

/// Two digests, of 32 bytes each.
#[derive(Clone, Copy, Debug, PartialEq, Eq)]
pub struct Digests {
    /// That of all but the last 32 bytes.
    pub wanted: [u8; 32],
    /// The last 32 bytes.
    pub found: [u8; 32],
}

/// The digests of a file's bytes; none where they are fewer than 32.
pub fn digests_of(bytes: &[u8]) -> Option<Digests>
    ensures found { IfSome result (AreDigestsOf bytes.now) }
    ensures none { IfNone result (length bytes.now < 32) }
{
    if bytes.len() < DIGEST {
        return None;
    }
    let (body, end) = bytes.split_at(bytes.len() - DIGEST);
    let mut found = [0u8; 32];
    found.copy_from_slice(end);
    Some(Digests {
        wanted: Sha256::digest(body),
        found,
    })
}
