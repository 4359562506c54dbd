//! Columns as distinct values and, for each row, the number of its value (dictionary encoding).
ghost use Rattle.std.specs.Prelude.{◌≡◌, ℕ, ◌<◌, ◌≤◌, [], true, false, IsTrue, IfOk, length, slice_index_or, nat_eq};
ghost use Rattle.std.specs.List.Sorted.{IsStrictlySortedBy};
ghost use Rattle.cs_codec.specs.Texts.{distinct_values, bitmap_lengths, bitmaps_text};
ghost use Rattle.cs_codec.specs.Columns.{cells_at};
ghost use Rattle.cs_codec.specs.BitmapReading.{HaveOnes, HaveText, HaveOtherText, NameValues};

use crate::bitmap::{Bitmap, write_bitmap};
use crate::cell::Cell;
use crate::column::Column;
use std::alloc::{AllocError, Global};

/// A column as its distinct values and, for each row, the number of its value, from 0.
#[derive(Drop)]
pub(crate) struct NumberedColumn<L> {
    pub(crate) values: L,
    pub(crate) numbers: Vec<u32>,
}

/// Whether the values strictly ascend.
fn ascend<C: Cell, L: Column<C>>(values: &L) -> bool
    ensures yes { IsTrue result → IsStrictlySortedBy C.cmp (L.cells values.now) }
    ensures no { result ≡ false → IsStrictlySortedBy C.cmp (L.cells values.now) → ⊥ }
{
    for at in 1..values.len() {
        if values.cell(at - 1).cmp(&values.cell(at)).is_ge() {
            return false;
        }
    }
    true
}

/// `count` bitmaps without ones.
fn empty_bitmaps(alloc: Global, count: usize) -> Result<Vec<Bitmap>, AllocError>
    ensures count { IfOk result (λ bitmaps. length bitmaps.items ≡ count) }
    ensures none { IfOk result (λ bitmaps. (n : ℕ) → slice_index_or bitmaps.items n [] ≡ []) }
{
    let mut bitmaps = Vec::with_capacity(alloc, count)?;
    for _number in 0..count {
        bitmaps.push(Bitmap::new(alloc))?;
    }
    Ok(bitmaps)
}

/// The bitmap of each number below `count`, built in one pass over the rows' numbers.
fn bitmaps_of_numbers(
    alloc: Global,
    numbers: &[u32],
    count: usize,
) -> Result<Vec<Bitmap>, AllocError>
    requires short { length numbers.now ≤ 1048576 }
    requires below { NameValues numbers.now count }
    ensures count { IfOk result (λ bitmaps. length bitmaps.items ≡ count) }
    ensures each { IfOk result (λ bitmaps. (n : ℕ) → n < count → slice_index_or bitmaps.items n [] ≡ bitmap_lengths nat_eq n numbers.now) }
{
    let mut bitmaps = empty_bitmaps(alloc, count)?;
    let mut position = 0;
    for number in numbers {
        bitmaps[*number as usize].add(position)?;
        position += 1;
    }
    Ok(bitmaps)
}

/// Whether the bytes are the values and their bitmaps, in turn, and each value occurs in some row. Each entry is
/// written and compared by itself, so no second copy of the body is built.
fn are_entries<C: Cell, L: Column<C>>(
    alloc: Global,
    values: &L,
    bitmaps: &[Bitmap],
    bytes: &[u8],
) -> Result<bool, AllocError>
    requires { length bitmaps.now ≡ length (L.cells values.now) }
    ensures yes { IfOk result (λ same. same ≡ true
        → HaveOnes bitmaps.now × HaveText C.bytes C.eq (L.cells values.now) bitmaps.now bytes.now) }
    ensures no { IfOk result (λ same. same ≡ false → HaveOnes bitmaps.now
        → HaveOtherText C.bytes C.eq (L.cells values.now) bitmaps.now bytes.now) }
{
    let mut entry = Vec::new(alloc);
    let mut left = bytes;
    for at in 0..values.len() {
        let bitmap = &bitmaps[at];
        if bitmap.lengths.is_empty() {
            return Ok(false);
        }
        entry.clear();
        write_bitmap(&mut entry, &values.cell(at), bitmap)?;
        let Some(rest) = left.strip_prefix(entry.as_slice()) else {
            return Ok(false);
        };
        left = rest;
    }
    Ok(left.is_empty())
}

/// Whether the bytes are the body of the column, and its values are exactly those of its rows, ascending.
pub(crate) fn has_text<C: Cell, L: Column<C>>(
    alloc: Global,
    column: &NumberedColumn<L>,
    bytes: &[u8],
) -> Result<bool, AllocError>
    requires short { length column.now.numbers.items ≤ 1048576 }
    requires below { NameValues column.now.numbers.items (length (L.cells column.now.values)) }
    ensures yes { IfOk result (λ same. same ≡ true
        → bytes.now ≡ bitmaps_text C.bytes C.eq C.cmp (cells_at (L.cells column.now.values) column.now.numbers.items)) }
    ensures no { IfOk result (λ same. same ≡ false
        → L.cells column.now.values ≡ distinct_values C.cmp (cells_at (L.cells column.now.values) column.now.numbers.items)
        → bytes.now ≡ bitmaps_text C.bytes C.eq C.cmp (cells_at (L.cells column.now.values) column.now.numbers.items) → ⊥) }
{
    let values = &column.values;
    if !ascend::<C, L>(values) {
        return Ok(false);
    }
    let bitmaps = bitmaps_of_numbers(alloc, &column.numbers, values.len())?;
    are_entries::<C, L>(alloc, values, &bitmaps, bytes)
}

/// The value of each row.
pub(crate) fn cells_of<C: Cell, L: Column<C>>(
    alloc: Global,
    column: &NumberedColumn<L>,
) -> Result<L, AllocError>
    requires { NameValues column.now.numbers.items (length (L.cells column.now.values)) }
    ensures { IfOk result (λ made. L.cells made ≡ cells_at (L.cells column.now.values) column.now.numbers.items) }
{
    let mut cells = L::new(alloc);
    cells.push_at(&column.values, &column.numbers)?;
    Ok(cells)
}
