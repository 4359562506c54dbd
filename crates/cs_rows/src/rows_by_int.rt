//! The rows of a column of ints in ascending order.
ghost use Rattle.std.specs.Prelude.{◌≡◌, ◌<◌, ◌^◌, IfOk, map, length};
ghost use Rattle.std.specs.List.{range_with_len};
ghost use Rattle.std.specs.List.Sorted.{IsPermutation, IsSorted};
ghost use Rattle.cs_schema.specs.declared.cells.Value.{Value};
ghost use Rattle.cs_rows.specs.Repeats.{numbered_cmp};

use cs_sort::sort_by_ints;
use std::alloc::{AllocError, Global};

/// The numbers of all rows by ascending int; rows with the same int by number.
pub(crate) fn rows_by_int(alloc: Global, ints: &[i64]) -> Result<Vec<usize>, AllocError>
    requires { length ints.now < 2 ^ 32 }
    ensures permutation { IfOk result (λ v. IsPermutation (range_with_len 0 (length ints.now)) v.items) }
    ensures sorted { IfOk result (λ v. IsSorted (numbered_cmp (map Value.Int ints.now)) v.items) }
{
    let mut rows = Vec::with_capacity(alloc, ints.len())?;
    for row in 0..ints.len() as u32 {
        rows.push(row)?;
    }
    let sorted = sort_by_ints(alloc, ints, &rows)?;
    indices(alloc, &sorted)
}

/// Row numbers as indices.
fn indices(alloc: Global, rows: &[u32]) -> Result<Vec<usize>, AllocError>
    ensures { IfOk result (λ v. v.items ≡ rows.now) }
{
    let mut indices = Vec::with_capacity(alloc, rows.len())?;
    for row in rows {
        indices.push(*row as usize)?;
    }
    Ok(indices)
}
