//! The place of each row: its segment times `SEGMENT_ROWS`, plus its index in the segment.
ghost use Rattle.std.specs.Prelude.{◌≡◌, ℕ, ◌<◌, ◌≤◌, IfOk, length, slice_index, All, Contains};
ghost use Rattle.cs_order.specs.Places.{IsThere, ArePlacesIn};

use crate::ranges::RowIds;
use cs_schema::limits::SEGMENT_ROWS;
use std::alloc::{AllocError, Global};

/// The place of each of `count` rows in these segments.
pub fn places(alloc: Global, segments: &[RowIds], count: usize) -> Result<Vec<u32>, AllocError>
    requires few { length segments.now ≤ 16 }
    requires rows { All (λ rows. (length rows ≤ 1048576) × All (λ r. r < count) rows) segments.now }
    ensures count { IfOk result (λ v. length v.items ≡ count) }
    ensures places { IfOk result (λ v. ArePlacesIn segments.now v.items) }
{
    let mut places = Vec::new(alloc);
    places.resize(count, 0u32)?;
    write_all(places.as_mut_slice(), segments);
    Ok(places)
}

/// Stores the place of each row.
fn write_all(places: &mut [u32], segments: &[RowIds])
    requires few { length segments.now ≤ 16 }
    requires rows { All (λ rows. (length rows ≤ 1048576) × All (λ r. r < length places.old) rows) segments.now }
    ensures { ArePlacesIn segments.now places.new }
{
    for (s, segment) in segments.iter().enumerate() {
        write_segment(places, s as u32, segment.rows());
    }
}

/// Stores the place of each row of a segment.
fn write_segment(places: &mut [u32], s: u32, rows: &[u32])
    requires segment { s < 16 }
    requires few { length rows.now ≤ 1048576 }
    requires within { All (λ r. r < length places.old) rows.now }
    ensures there { (r : ℕ) → Contains rows.now r → IsThere rows.now s r (slice_index places.new r) }
    ensures others { (r : ℕ) → (Contains rows.now r → ⊥) → slice_index places.new r ≡ slice_index places.old r }
{
    let first = s * SEGMENT_ROWS;
    for (index, row) in rows.iter().enumerate() {
        places[*row as usize] = first + index as u32;
    }
}
