//! Reading from the start of a slice of bytes.
ghost use Rattle.std.specs.Prelude.{◌≡◌, ℕ, ◌<◌, ◌^◌, ◌≤◌, List, ◌++◌, ◌∷◌, length, IfSome, IfNone};
ghost use Rattle.cs_segment.specs.Bytes.{be16, be32};

/// The bytes after this prefix. `None` if they do not start with it.
pub fn after<'a>(bytes: &'a [u8], front: &[u8]) -> Option<&'a [u8]>
    ensures found { IfSome result (λ rest. bytes.now ≡ front.now ++ rest.now) }
    ensures none { IfNone result ((rest : List ℕ) → bytes.now ≡ front.now ++ rest → ⊥) }
{
    bytes.strip_prefix(front)
}

/// The big-endian number in the first four bytes, and the bytes after it. `None` if there are fewer than four.
pub fn number(bytes: &[u8]) -> Option<(u32, &[u8])>
    ensures found { IfSome result (λ r. (bytes.now ≡ be32 r.0 ++ r.1.now) × (r.0 < 2 ^ 32)) }
    ensures none { IfNone result (length bytes.now < 4) }
{
    let (front, rest) = parts(bytes, 4)?;
    Some((
        u32::from_be_bytes([front[0], front[1], front[2], front[3]]),
        rest,
    ))
}

/// The first `len` bytes, and the bytes after them. `None` if there are fewer.
pub fn parts(bytes: &[u8], len: usize) -> Option<(&[u8], &[u8])>
    ensures found { IfSome result (λ r. (bytes.now ≡ r.0.now ++ r.1.now) × (length r.0.now ≡ len)) }
    ensures none { IfNone result (length bytes.now < len) }
{
    if bytes.len() < len {
        return None;
    }
    Some(bytes.split_at(len))
}

/// The big-endian number in the first two bytes, and the bytes after it. `None` if there are fewer than two.
pub fn short(bytes: &[u8]) -> Option<(u16, &[u8])>
    ensures found { IfSome result (λ r. (bytes.now ≡ be16 r.0 ++ r.1.now) × (r.0 < 2 ^ 16)) }
    ensures none { IfNone result (length bytes.now < 2) }
{
    let (front, rest) = parts(bytes, 2)?;
    Some((u16::from_be_bytes([front[0], front[1]]), rest))
}
