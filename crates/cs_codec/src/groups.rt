//! Numbers in groups of seven bits, least significant group first (LEB128).
ghost use Rattle.std.specs.Prelude.{◌≡◌, ◌++◌, OnOk, IfSome, IfNone};
ghost use Rattle.cs_codec.specs.Texts.{short};
ghost use Rattle.cs_codec.specs.Differences.{GroupsStandAt, NoGroupsStandAt};

use std::alloc::AllocError;

/// Appends a number in the fewest groups of seven bits, the least significant first.
pub(crate) fn write_short(out: &mut Vec<u8>, n: u64) -> Result<(), AllocError>
    ensures { OnOk result (out.new.items ≡ out.old.items ++ short n) }
{
    let mut rest = n;
    while rest >= 128 {
        out.push((rest % 128 + 128) as u8)?;
        rest /= 128;
    }
    out.push(rest as u8)?;
    Ok(())
}

/// The number at offset `at`, and the offset after it. `None` if there is no number of at most `more` + 1 groups, if it
/// has more groups than it needs, or if it does not fit 64 bits.
pub(crate) fn read_groups(bytes: &[u8], at: usize, more: u32) -> Option<(u64, usize)>
    ensures found { IfSome result (λ found. GroupsStandAt more bytes.now at found.0 found.1) }
    ensures none { IfNone result (NoGroupsStandAt more bytes.now at) }
{
    if at >= bytes.len() {
        return None;
    }
    let byte = bytes[at];
    if byte < 128 {
        return Some((byte as u64, at + 1));
    }
    if more == 0 {
        return None;
    }
    let low = (byte - 128) as u64;
    let (high, end) = read_groups(bytes, at + 1, more - 1)?;
    if high == 0 {
        return None;
    }
    if high > (u64::MAX - low) / 128 {
        return None;
    }
    Some((low + 128 * high, end))
}
