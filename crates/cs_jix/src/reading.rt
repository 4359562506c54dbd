//! Reading a join index's file.
ghost use Rattle.std.specs.Prelude.{◌≡◌, ◌≤◌, ◌<◌, ◌*◌, ◌+◌, ◌++◌, ℕ, List, length, IfOk, IfSome, IfNone, Err, ◌^◌, IsTrue};
ghost use Rattle.std.specs.List.{zip, list_all};
ghost use Rattle.cs_schema.specs.Lists.{IsIn};
ghost use Rattle.cs_segment.specs.SegmentFile.{sealed};
ghost use Rattle.cs_jix.specs.JoinIndex.{Place, IsJoinIndexFile};
ghost use Rattle.cs_jix.specs.Entries.{join_head, entry_text, entries_text, is_allowed, FitEntry};

use crate::index::JoinIndex;
use crate::writing::head;
use cs_schema::limits::{CUTS, DELTA_KEYS};
use cs_segment::bytes::{after, number};
use cs_segment::fault::FileFault;
use cs_segment::seal::unseal;
use std::alloc::{AllocError, Global};

/// Whether an entry is valid: empty, or with a segment number and a key within their limits.
fn is_allowed(segment: u16, key: u32) -> bool
    ensures { result ≡ is_allowed (segment, key) }
{
    if key == 0 {
        segment == 0
    } else {
        usize::from(segment) <= CUTS && key <= DELTA_KEYS
    }
}

/// Whether all entries are valid.
fn all_allowed(segments: &[u16], keys: &[u32]) -> bool
    requires { length segments.now ≡ length keys.now }
    ensures all { result ≡ list_all is_allowed (zip segments.now keys.now) }
    ensures fit { (e : Place) → IsIn e (zip segments.now keys.now) → FitEntry e }
{
    for i in 0..keys.len() {
        if !is_allowed(segments[i], keys[i]) {
            return false;
        }
    }
    true
}

/// Decodes an entry.
fn read_entry(entry: &[u8]) -> (u16, u32)
    requires { length entry.now ≡ 6 }
    ensures { entry.now ≡ entry_text result }
{
    let (front, back) = entry.split_at(2);
    (
        u16::from_be_bytes([front[0], front[1]]),
        u32::from_be_bytes([back[0], back[1], back[2], back[3]]),
    )
}

/// Decodes `count` entries into their segments and their keys. It does not ask whether they are valid.
fn read_entries(
    alloc: Global,
    bytes: &[u8],
    count: usize,
) -> Result<(Vec<u16>, Vec<u32>), AllocError>
    requires { length bytes.now ≡ 6 * count }
    ensures segments { IfOk result (λ r. length r.0.items ≡ count) }
    ensures keys { IfOk result (λ r. length r.1.items ≡ count) }
    ensures text { IfOk result (λ r. bytes.now ≡ entries_text (zip r.0.items r.1.items)) }
{
    let mut segments: Vec<u16> = Vec::with_capacity(alloc, count)?;
    let mut keys: Vec<u32> = Vec::with_capacity(alloc, count)?;
    for i in 0..count {
        let (segment, key) = read_entry(&bytes[6 * i..6 * i + 6]);
        segments.push(segment)?;
        keys.push(key)?;
    }
    Ok((segments, keys))
}

/// Reads the join index of segment `s` of projection `p` into projection `q` from its bytes without the digest, which
/// the caller verifies. `Damaged` if the bytes with their digest are not such a join index.
pub fn read_jix_text(
    alloc: Global,
    p: u16,
    s: u16,
    q: u16,
    text: &[u8],
) -> Result<JoinIndex, FileFault>
    ensures found { IfOk result (IsJoinIndexFile p s q (sealed text.now)) }
    ensures refused { result ≡ Err FileFault.Damaged → (entries : List Place) → IsJoinIndexFile p s q (sealed text.now) entries → ⊥ }
    ensures only { IfOk result (λ join. (entries : List Place) → IsJoinIndexFile p s q (sealed text.now) entries → entries ≡ join) }
{
    let front = head(p, s, q);
    let Some(rest) = after(text, front.as_slice()) else {
        return Err(FileFault::Damaged);
    };
    let Some((count, body)) = number(rest) else {
        return Err(FileFault::Damaged);
    };
    if count > DELTA_KEYS || body.len() != 6 * count as usize {
        return Err(FileFault::Damaged);
    }
    let (segments, keys) = read_entries(alloc, body, count as usize)?;
    if !all_allowed(&segments, &keys) {
        return Err(FileFault::Damaged);
    }
    Ok(JoinIndex::from_parts(segments, keys))
}

/// Reads the join index of segment `s` of projection `p` into projection `q`. `Damaged` if the bytes are not such a
/// join index.
pub fn read_jix(alloc: Global, p: u16, s: u16, q: u16, bytes: &[u8]) -> Result<JoinIndex, FileFault>
    ensures found { IfOk result (IsJoinIndexFile p s q bytes.now) }
    ensures refused { result ≡ Err FileFault.Damaged → (entries : List Place) → IsJoinIndexFile p s q bytes.now entries → ⊥ }
    ensures only { IfOk result (λ join. (entries : List Place) → IsJoinIndexFile p s q bytes.now entries → entries ≡ join) }
{
    let Some(text) = unseal(bytes) else {
        return Err(FileFault::Damaged);
    };
    read_jix_text(alloc, p, s, q, text)
}
