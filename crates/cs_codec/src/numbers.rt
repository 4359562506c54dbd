//! Numbers as bytes, big-endian.
ghost use Rattle.std.specs.Prelude.{◌≡◌, ℕ, ◌+◌, ◌≤◌, ◌<◌, ◌^◌, List, ◌++◌, length, take, drop, OnOk, OnErr, IfSome, IfNone, MatchOption};
ghost use Rattle.std.specs.Int.{w32, w64, from_be_bytes, to_be_bytes};
ghost use Rattle.cs_codec.specs.Cells.{number, NumberStandsAt};

use std::alloc::AllocError;

#[inline]
fn u32_at(text: &[u8], at: usize) -> Option<u32>
    ensures { MatchOption result (length text.now < at + 4)
        (λ n. (at + 4 ≤ length text.now) × (n ≡ from_be_bytes w32 (take 4 (drop at text.now)))) }
{
    if at > text.len() || text.len() - at < 4 {
        return None;
    }
    let (_, rest) = text.split_at(at);
    let (front, _) = rest.split_at(4);
    Some(u32::from_be_bytes([front[0], front[1], front[2], front[3]]))
}

#[inline]
pub(crate) fn u64_at(text: &[u8], at: usize) -> Option<u64>
    ensures { MatchOption result (length text.now < at + 8)
        (λ n. (at + 8 ≤ length text.now) × (n ≡ from_be_bytes w64 (take 8 (drop at text.now)))) }
{
    if at > text.len() || text.len() - at < 8 {
        return None;
    }
    let (_, rest) = text.split_at(at);
    let (front, _) = rest.split_at(8);
    Some(u64::from_be_bytes([
        front[0], front[1], front[2], front[3], front[4], front[5], front[6], front[7],
    ]))
}

/// The big-endian number in the four bytes at offset `at`. `None` if there are fewer.
#[inline]
pub fn read_number(text: &[u8], at: usize) -> Option<u32>
    ensures found { IfSome result (NumberStandsAt text.now at) }
    ensures none { IfNone result ((n : ℕ) (rest : List ℕ) → drop at text.now ≡ number n ++ rest → ⊥) }
{
    u32_at(text, at)
}

/// Appends a number as four bytes, big-endian. If memory is refused, nothing changes.
#[inline]
pub fn write_number(out: &mut Vec<u8>, n: u32) -> Result<(), AllocError>
    ensures ok { OnOk result (out.new.items ≡ out.old.items ++ number n) }
    ensures err { OnErr result (out.new.items ≡ out.old.items) }
{
    out.extend_from_slice(&n.to_be_bytes())
}
