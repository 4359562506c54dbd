//! The digest at the end of a file.
ghost use Rattle.std.specs.Prelude.{◌≡◌, ◌++◌, ◌-◌, ℕ, List, true, length, map, take, IsTrue, IfOk, OnOk, OnErr, IfSome, IfNone};
ghost use Rattle.std.specs.Borrow.{Bor};
ghost use Rattle.sha2.specs.Sha256.{sha256};
ghost use Rattle.cs_schema.specs.Lists.{IsIn};
ghost use Rattle.cs_segment.specs.SegmentFile.{sealed};
ghost use Rattle.cs_segment.specs.Bodies.{IsSealed};

use cs_digests::{digest_of, digests_of};
use std::alloc::{AllocError, Global};

/// The size of a digest in bytes.
pub const DIGEST: usize = 32;

/// Appends the SHA-256 digest of the bytes. If memory is refused, nothing changes.
pub fn seal(bytes: &mut Vec<u8>) -> Result<(), AllocError>
    ensures ok { OnOk result (bytes.new.items ≡ sealed bytes.old.items) }
    ensures err { OnErr result (bytes.new.items ≡ bytes.old.items) }
{
    let digest = digest_of(bytes);
    bytes.extend_from_slice(&digest)
}

/// The bytes without the digest at their end. `None` if they do not end with the digest of the bytes before it.
pub fn unseal(bytes: &[u8]) -> Option<&[u8]>
    ensures found { IfSome result (λ body. bytes.now ≡ sealed body.now) }
    ensures none { IfNone result ((body : List ℕ) → bytes.now ≡ sealed body → ⊥) }
{
    if bytes.len() < DIGEST {
        return None;
    }
    let (body, end) = bytes.split_at(bytes.len() - DIGEST);
    let digest = digest_of(body);
    if end == digest.as_slice() {
        Some(body)
    } else {
        None
    }
}

/// Whether the bytes end with the digest of the bytes before it.
pub fn is_sealed(bytes: &[u8]) -> bool
    ensures { IsSealed bytes.now result }
{
    unseal(bytes).is_some()
}

/// The bytes of each file before the last 32, which should be the digest. Of a shorter file, none.
fn texts_of<'a>(alloc: Global, files: &[&'a [u8]]) -> Result<Vec<&'a [u8]>, AllocError>
    ensures { IfOk result (λ texts. map (λ t. t.now) texts.items ≡ map (λ f. take (length f.now - 32) f.now) files.now) }
{
    let mut texts = Vec::with_capacity(alloc, files.len())?;
    for file in files {
        texts.push(&file[..file.len().saturating_sub(DIGEST)])?;
    }
    Ok(texts)
}

/// Whether a file ends with this digest, which is that of the bytes before its last 32.
fn ends_in(bytes: &[u8], digest: &[u8; 32]) -> bool
    requires { digest.now ≡ sha256 (take (length bytes.now - 32) bytes.now) }
    ensures { IsTrue result → IsSealed bytes.now true }
{
    let (_, end) = bytes.split_at(bytes.len().saturating_sub(DIGEST));
    end == digest.as_slice()
}

/// Whether each file ends with the digest of the bytes before it. Files are hashed four at a time, fastest if the
/// longest come first. If memory is refused, the answer is `false`.
pub fn are_sealed(alloc: Global, files: &[&[u8]]) -> bool
    ensures { IsTrue result → (f : Bor (List ℕ)) → IsIn f files.now → IsSealed f.now true }
{
    let Ok(texts) = texts_of(alloc, files) else {
        return false;
    };
    let Ok(digests) = digests_of(alloc, &texts) else {
        return false;
    };
    for i in 0..files.len() {
        if !ends_in(files[i], &digests[i]) {
            return false;
        }
    }
    true
}
