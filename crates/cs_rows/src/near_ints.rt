//! Repeats among int keys that lie close together.
//!
//! Each int from the smallest to the largest has a mark, so each row is read once and nothing is sorted.
ghost use Rattle.std.specs.Prelude.{◌≡◌, ◌≤◌, ◌*◌, All, IfSome, OnOk, map, length};
ghost use Rattle.cs_schema.specs.declared.cells.Value.{Value};
ghost use Rattle.cs_rows.specs.Repeats.{AreRepeats, IsNear};

use crate::marks::no_marks;
use std::alloc::{AllocError, Global};

/// The maximum number of marks for each row. A mark takes one byte, so they take less memory than sorting the rows.
const MARKS: u64 = 8;

/// The smallest int, and the number of ints from it to the largest, if that is at most `MARKS` for each row.
pub(crate) fn near_ints(ints: &[i64]) -> Option<(i64, usize)>
    ensures near { IfSome result (λ near. All (IsNear near.0 near.1) ints.now) }
    ensures few { IfSome result (λ near. near.1 ≤ 8 * length ints.now) }
{
    let mut least = i64::MAX;
    let mut most = i64::MIN;
    for int in ints {
        least = least.min(*int);
        most = most.max(*int);
    }
    if most < least {
        return None;
    }
    let above = most.abs_diff(least);
    if above / MARKS < ints.len() as u64 {
        Some((least, above as usize + 1))
    } else {
        None
    }
}

/// Sets each row's mark to whether its int occurs in an earlier row. Each int is one of the `count` ints from `least`
/// on.
pub(crate) fn mark_near_ints(
    alloc: Global,
    ints: &[i64],
    least: i64,
    count: usize,
    marks: &mut [bool],
) -> Result<(), AllocError>
    requires near { All (IsNear least count) ints.now }
    requires marks { length marks.old ≡ length ints.now }
    ensures { OnOk result (AreRepeats (map Value.Int ints.now) marks.new) }
{
    let mut seen = no_marks(alloc, count)?;
    for (row, int) in ints.iter().enumerate() {
        let place = int.abs_diff(least) as usize;
        marks[row] = seen[place];
        seen[place] = true;
    }
    Ok(())
}
