//! The positions of one value, as run lengths.
ghost use Rattle.std.specs.Prelude.{◌≡◌, ◌≤◌, ◌<◌, ◌+◌, ◌-◌, ◌++◌, [], ◌∷◌, IfOk, OnOk, OnErr, length};
ghost use Rattle.cs_codec.specs.Bitmaps.{glued, total, with_run, entry_text};

use crate::cell::Cell;
use crate::numbers::write_number;
use std::alloc::{AllocError, Global};
use std::marker::Model;

/// The lengths of a bitmap's maximal runs, zeros first, up to the last run of ones, and the position after its last
/// one. Contracts see the lengths.
#[derive(Drop)]
pub struct Bitmap {
    pub(crate) lengths: Vec<u32>,
    pub(crate) end: u32,
}

impl Model for Bitmap {
    ghost use Rattle.std.specs.Prelude.{List, ℕ};

    ghost Value = { List ℕ };

    ghost use Rattle.cs_codec.specs.Bitmaps.{IsBitmap};

    ghost view = { λ bitmap. bitmap.lengths.items };

    ghost invariant = { λ bitmap. IsBitmap bitmap.lengths.items bitmap.end };
}

/// Appends a run of zeros and then a run of ones to the lengths of a bitmap. If memory is refused, nothing changes.
fn push_run(lengths: &mut Vec<u32>, zeros: u32, ones: u32) -> Result<(), AllocError>
    requires { total lengths.old.items + ones ≤ 1048576 }
    ensures ok { OnOk result (lengths.new.items ≡ with_run lengths.old.items zeros ones) }
    ensures err { OnErr result (lengths.new.items ≡ lengths.old.items) }
{
    let len = lengths.len();
    if zeros == 0 && len > 0 {
        lengths[len - 1] += ones;
        return Ok(());
    }
    lengths.push(zeros)?;
    if lengths.push(ones).is_err() {
        lengths.truncate(len);
        return Err(AllocError);
    }
    Ok(())
}

impl Bitmap {
    /// A bitmap without ones.
    pub(crate) fn new(alloc: Global) -> Bitmap
        ensures { result ≡ [] }
    {
        Bitmap {
            lengths: Vec::new(alloc),
            end: 0,
        }
    }

    /// Adds a one at a position, from 0, that is after all others.
    pub(crate) fn add(&mut self, position: u32) -> Result<(), AllocError>
        requires below { total self.old ≤ position }
        requires short { position < 1048576 }
        requires few { length self.old < 4194303 }
        ensures { OnOk result (self.new ≡ glued self.old (position - total self.old) (0 ∷ 1 ∷ [])) }
    {
        let gap = position - self.end;
        push_run(&mut self.lengths, gap, 1)?;
        self.end = position + 1;
        Ok(())
    }

    /// Appends the bitmap of the next positions to this bitmap of the first `offset` positions. `end` is the position
    /// after the last one of both.
    pub(crate) fn follow(&mut self, offset: u32, other: &[u32], end: u32) -> Result<(), AllocError>
        requires below { total self.old ≤ offset }
        requires some { 2 ≤ length other.now }
        requires end { offset + total other.now ≡ end }
        requires short { end ≤ 1048576 }
        requires few { length self.old + length other.now ≤ 4194304 }
        ensures { OnOk result (self.new ≡ glued self.old (offset - total self.old) other.now) }
    {
        let gap = offset - self.end + other[0];
        push_run(&mut self.lengths, gap, other[1])?;
        self.end = offset + other[0] + other[1];
        self.lengths.extend_from_slice(&other[2..])?;
        self.end = end;
        Ok(())
    }

    /// This bitmap after `offset` zeros.
    pub(crate) fn shifted(self, offset: u32) -> Bitmap
        requires some { 1 ≤ length self }
        requires short { offset + total self ≤ 1048576 }
        ensures { result ≡ glued [] offset self }
    {
        let mut lengths = self.lengths;
        lengths[0] += offset;
        Bitmap {
            lengths,
            end: self.end + offset,
        }
    }
}

/// Appends the bytes of a value and of its bitmap.
pub(crate) fn write_bitmap<C: Cell>(
    out: &mut Vec<u8>,
    value: &C,
    bitmap: &Bitmap,
) -> Result<(), AllocError>
    ensures { OnOk result (out.new.items ≡ out.old.items ++ entry_text C.bytes (value.now, bitmap.now)) }
{
    value.write(out)?;
    write_number(out, bitmap.lengths.len() as u32)?;
    for length in &bitmap.lengths {
        write_number(out, *length)?;
    }
    Ok(())
}
