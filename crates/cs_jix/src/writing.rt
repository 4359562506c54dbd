//! Writing a join index's file.
ghost use Rattle.std.specs.Prelude.{◌≡◌, ◌≤◌, ◌++◌, ℕ, List, length, IfOk, OnOk};
ghost use Rattle.cs_schema.specs.Lists.{IsIn};
ghost use Rattle.cs_segment.specs.Bytes.{be32};
ghost use Rattle.cs_jix.specs.JoinIndex.{Place, IsEntry, IsJoinIndexFile};
ghost use Rattle.cs_jix.specs.Entries.{join_head, entries_text};

use cs_segment::seal::seal;
use std::alloc::{AllocError, Global};

/// The header of a join index's file, up to the number of entries.
pub(crate) fn head(p: u16, s: u16, q: u16) -> [u8; 14]
    ensures { result ≡ join_head p s q }
{
    let p = p.to_be_bytes();
    let s = s.to_be_bytes();
    let q = q.to_be_bytes();
    [
        b'C', b'S', b'J', b'I', b'X', b'0', b'0', b'1', p[0], p[1], s[0], s[1], q[0], q[1],
    ]
}

/// Appends the encoded entries.
fn write_entries(text: &mut Vec<u8>, entries: &[(u16, u32)]) -> Result<(), AllocError>
    ensures { OnOk result (text.new.items ≡ text.old.items ++ entries_text entries.now) }
{
    for entry in entries {
        text.extend_from_slice(&entry.0.to_be_bytes())?;
        text.extend_from_slice(&entry.1.to_be_bytes())?;
    }
    Ok(())
}

/// The file of the join index of segment `s` of projection `p` into projection `q`. The entries are those of the keys
/// 1, 2, 3, .. in order: a segment of `q` and a key in it, or (0, 0) at a key without a live row.
pub fn write_jix(
    alloc: Global,
    p: u16,
    s: u16,
    q: u16,
    entries: &[(u16, u32)],
) -> Result<Vec<u8>, AllocError>
    requires count { length entries.now ≤ 4194304 }
    requires each { (e : Place) → IsIn e entries.now → IsEntry e }
    ensures { IfOk result (λ bytes. IsJoinIndexFile p s q bytes.items entries.now) }
{
    // 18 bytes of header, 6 for each entry, and 32 of digest
    let mut text: Vec<u8> = Vec::with_capacity(alloc, entries.len().saturating_mul(6) + 50)?;
    text.extend_from_slice(&head(p, s, q))?;
    text.extend_from_slice(&(entries.len() as u32).to_be_bytes())?;
    write_entries(&mut text, entries)?;
    seal(&mut text)?;
    Ok(text)
}
