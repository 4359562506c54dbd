//! Writing an empty delta.
ghost use Rattle.std.specs.Prelude.{◌≡◌, IfOk};
ghost use Rattle.cs_delta.specs.DeltaFile.{delta_text, no_changes};

use cs_segment::seal::seal;
use std::alloc::{AllocError, Global};

/// The file, of version 1, of the empty delta of segment `s` of projection `p`, which has `rows` rows. Its highest key
/// is `rows`.
pub fn write_empty_delta(alloc: Global, p: u16, s: u16, rows: u32) -> Result<Vec<u8>, AllocError>
    ensures { IfOk result (λ out. out.items ≡ delta_text (no_changes p s rows)) }
{
    let mut out = Vec::new(alloc);
    out.extend_from_slice(b"CSDEL001")?;
    out.extend_from_slice(&p.to_be_bytes())?;
    out.extend_from_slice(&s.to_be_bytes())?;
    out.extend_from_slice(&rows.to_be_bytes())?;
    out.extend_from_slice(&rows.to_be_bytes())?;
    out.extend_from_slice(&0u32.to_be_bytes())?;
    seal(&mut out)?;
    Ok(out)
}
