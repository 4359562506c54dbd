//! Reading a column from its bitmaps.
ghost use Rattle.std.specs.Prelude.{◌≡◌, ◌≤◌, ◌<◌, false, replicate, IsTrue, IfOk, IfSome, IfNone, length};
ghost use Rattle.cs_codec.specs.Bitmaps.{bits_from, total, ones_of};
ghost use Rattle.cs_codec.specs.Painting.{PaintsRun, Painted};
ghost use Rattle.cs_codec.specs.BitmapReading.{ReadsNumbers, ReadsLengths, ReadsEntry, AddsEntry, NoBitmaps};
ghost use Rattle.cs_codec.specs.BitmapReading.{IsOnlyCandidate};

use crate::cell::Cell;
use crate::column::Column;
use crate::numbered::NumberedColumn;
use crate::numbers::read_number;
use std::alloc::{AllocError, Global};

/// Reads the `count` numbers at offset `at` into `numbers`, in place of what it had. Returns the offset after them, or
/// `None` if there are fewer.
fn read_numbers(
    numbers: &mut Vec<u32>,
    bytes: &[u8],
    at: usize,
    count: u32,
) -> Result<Option<usize>, AllocError>
    requires { at ≤ length bytes.now }
    ensures { IfOk result (λ found. ReadsNumbers bytes.now at count numbers.new.items found) }
{
    numbers.clear();
    let mut end = at;
    for _ in 0..count {
        let Some(number) = read_number(bytes, end) else {
            return Ok(None);
        };
        numbers.push(number)?;
        end += 4;
    }
    Ok(Some(end))
}

/// Assigns the number to the rows `start..stop`.
fn paint_run(numbers: &mut Vec<u32>, number: u32, start: usize, stop: usize)
    requires order { start ≤ stop }
    requires within { stop ≤ length numbers.old.items }
    ensures { PaintsRun number start stop numbers.old.items numbers.new.items }
{
    for k in start..stop {
        numbers[k] = number;
    }
}

/// Assigns the number to the rows that the lengths of a bitmap mark. Returns `false` if they go past the last row.
fn paint(numbers: &mut Vec<u32>, number: u32, lengths: &[u32]) -> bool
    ensures painted { IsTrue result → Painted number (bits_from false lengths.now) numbers.old.items numbers.new.items }
    ensures too_long { result ≡ false → length numbers.old.items < total lengths.now }
{
    let mut position = 0;
    let mut ones = false;
    for length in lengths {
        let count = *length as usize;
        if count > numbers.len() - position {
            return false;
        }
        let stop = position + count;
        if ones {
            paint_run(numbers, number, position, stop);
        }
        position = stop;
        ones = !ones;
    }
    true
}

/// The number of ones that the lengths of a bitmap count. `None` if it is above `limit`.
fn count_ones(lengths: &[u32], limit: u32) -> Option<u32>
    ensures found { IfSome result (λ n. n ≡ ones_of false lengths.now) }
    ensures within { IfSome result (λ n. n ≤ limit) }
    ensures none { IfNone result (limit < ones_of false lengths.now) }
{
    let mut count = 0;
    let mut ones = false;
    for length in lengths {
        if ones {
            if *length > limit - count {
                return None;
            }
            count += *length;
        }
        ones = !ones;
    }
    Some(count)
}

/// Reads the bitmap at offset `at` into `lengths`, in place of what it had. Returns the offset after it, or `None` if
/// no bitmap is there.
fn read_lengths(
    lengths: &mut Vec<u32>,
    bytes: &[u8],
    at: usize,
) -> Result<Option<usize>, AllocError>
    ensures { IfOk result (λ found. ReadsLengths bytes.now at lengths.new.items found) }
{
    let Some(count) = read_number(bytes, at) else {
        return Ok(None);
    };
    read_numbers(lengths, bytes, at + 4, count)
}

/// Reads the entry at offset `at`, its bitmap into `lengths`. Returns its value and the offset after it, or `None` if
/// no entry is there.
fn read_entry<C: Cell>(
    lengths: &mut Vec<u32>,
    bytes: &[u8],
    at: usize,
) -> Result<Option<(C, usize)>, AllocError>
    ensures { IfOk result (λ found. ReadsEntry C.bytes C.is_cell bytes.now at lengths.new.items found) }
{
    let Some((value, end)) = C::read(bytes, at) else {
        return Ok(None);
    };
    let Some(stop) = read_lengths(lengths, bytes, end)? else {
        return Ok(None);
    };
    Ok(Some((value, stop)))
}

/// Reads the entry at offset `at`: appends its value to `values`, and reads its bitmap into `lengths`. Returns the
/// offset after it, or `None` if no entry is there.
fn add_entry<C: Cell, L: Column<C>>(
    values: &mut L,
    lengths: &mut Vec<u32>,
    bytes: &[u8],
    at: usize,
) -> Result<Option<usize>, AllocError>
    ensures { IfOk result (λ found.
        AddsEntry C.bytes C.is_cell bytes.now at (L.cells values.old) (L.cells values.new) lengths.new.items found) }
{
    let Some(end) = values.read(bytes, at)? else {
        return Ok(None);
    };
    read_lengths(lengths, bytes, end)
}

/// Whether the entries mark as many positions as there are rows. It is checked before memory is reserved for the rows.
pub(crate) fn names_all_rows<C: Cell>(
    alloc: Global,
    bytes: &[u8],
    rows: u32,
) -> Result<bool, AllocError>
    ensures { IfOk result (λ all. all ≡ false → NoBitmaps C.bytes C.is_cell C.eq C.cmp bytes.now rows) }
{
    let mut lengths = Vec::new(alloc);
    let mut named = 0;
    let mut at = 0;
    while at < bytes.len() {
        let entry: Option<(C, usize)> = read_entry(&mut lengths, bytes, at)?;
        let Some((_, next)) = entry else {
            return Ok(false);
        };
        let Some(ones) = count_ones(&lengths, rows - named) else {
            return Ok(false);
        };
        named += ones;
        at = next;
    }
    Ok(named == rows)
}

/// The only column of `rows` cells whose body the bytes can be. Values are numbered in the order of the entries, and
/// each row has the number of its value. `None` if there is no such column.
pub(crate) fn candidate<C: Cell, L: Column<C>>(
    alloc: Global,
    bytes: &[u8],
    rows: u32,
) -> Result<Option<NumberedColumn<L>>, AllocError>
    ensures found { IfOk result (λ found. IfSome found (λ column.
        IsOnlyCandidate C.bytes C.is_cell C.eq C.cmp bytes.now rows (L.cells column.values) column.numbers.items)) }
    ensures none { IfOk result (λ found. IfNone found (NoBitmaps C.bytes C.is_cell C.eq C.cmp bytes.now rows)) }
{
    let mut numbers = zeros(alloc, rows)?;
    let mut values = L::new(alloc);
    let mut lengths = Vec::new(alloc);
    let mut count = 0;
    let mut at = 0;
    while at < bytes.len() {
        if count == rows {
            return Ok(None);
        }
        let Some(next) = add_entry(&mut values, &mut lengths, bytes, at)? else {
            return Ok(None);
        };
        if !paint(&mut numbers, count, &lengths) {
            return Ok(None);
        }
        count += 1;
        at = next;
    }
    if count == 0 && rows > 0 {
        return Ok(None);
    }
    Ok(Some(NumberedColumn { values, numbers }))
}

/// `rows` zeros.
fn zeros(alloc: Global, rows: u32) -> Result<Vec<u32>, AllocError>
    ensures { IfOk result (λ numbers. numbers.items ≡ replicate rows 0) }
{
    vec![in alloc; 0; rows as usize]
}
