//! Reading a column from its runs.
ghost use Rattle.std.specs.Prelude.{◌≡◌, ℕ, ◌-◌, ◌≤◌, ◌<◌, ◌++◌, length, replicate, slice_get, Some, Err, false, IfOk, OnOk, IfSome, IfNone, IsTrue};
ghost use Rattle.cs_codec.specs.Encodings.{IsColumn, NoColumn, IsShort};
ghost use Rattle.cs_codec.specs.RunTexts.{NoRunStandsAt, ReadsRun, Differs};
ghost use Rattle.cs_codec.specs.Texts.{runs_text};

use crate::cell::Cell;
use crate::column::Column;
use crate::encoding::CodecFault;
use crate::numbers::read_number;
use std::alloc::{AllocError, Global};

/// Appends the cell of the run at offset `at`. Returns the position and the length of the run, and the offset after it.
/// `None` if no run is there.
#[inline]
fn read_run<C: Cell, L: Column<C>>(
    cells: &mut L,
    bytes: &[u8],
    at: usize,
) -> Result<Option<(u32, u32, usize)>, AllocError>
    ensures found { IfOk result (λ read. IfSome read (λ found.
        ReadsRun C.bytes C.is_cell bytes.now at (L.cells cells.old) (L.cells cells.new) found.0 found.1 found.2)) }
    ensures none { IfOk result (λ read. IfNone read (NoRunStandsAt C.bytes C.is_cell bytes.now at)) }
{
    let Some(end) = cells.read(bytes, at)? else {
        return Ok(None);
    };
    let Some(position) = read_number(bytes, end) else {
        return Ok(None);
    };
    let Some(count) = read_number(bytes, end + 4) else {
        return Ok(None);
    };
    Ok(Some((position, count, end + 8)))
}

/// Whether the cell at an index differs from the one before it.
#[inline]
fn differs<C: Cell, L: Column<C>>(cells: &L, at: usize) -> bool
    requires { at < length (L.cells cells.now) }
    ensures yes { IsTrue result → Differs (L.cells cells.now) at }
    ensures no { result ≡ false → Differs (L.cells cells.now) at → ⊥ }
{
    at == 0 || !cells.same(at - 1, cells, at)
}

/// Appends the cell at an index `more` times. Before the first one, room is reserved for `room` cells, all that are
/// still missing.
#[inline]
fn repeat_at<C: Cell, L: Column<C>>(
    cells: &mut L,
    at: usize,
    more: u32,
    room: u32,
) -> Result<(), AllocError>
    requires { at < length (L.cells cells.old) }
    ensures { OnOk result ((c : C) → slice_get (L.cells cells.old) at ≡ Some c → L.cells cells.new ≡ L.cells cells.old ++ replicate more c) }
{
    if more == 0 {
        return Ok(());
    }
    cells.reserve(room as usize, 0)?;
    let cell = cells.cell(at);
    cells.repeat(&cell, more)
}

/// The smallest number of bytes of a run: one for the cell, four for the position, four for the length.
const LEAST_RUN: usize = 9;

/// The column of `rows` cells whose body the bytes are. Room is reserved for as many cells as the bytes can have runs,
/// and for the rest once a run repeats its cell.
pub(crate) fn read_column<C: Cell, L: Column<C>>(
    alloc: Global,
    bytes: &[u8],
    rows: u32,
) -> Result<L, CodecFault>
    requires { rows ≤ 1048576 }
    ensures found { IfOk result (λ cells. IsColumn (runs_text C.bytes C.eq) IsShort C.is_cell bytes.now rows (L.cells cells)) }
    ensures not_a_text { result ≡ Err CodecFault.NotAText → NoColumn (runs_text C.bytes C.eq) IsShort C.is_cell bytes.now rows }
{
    let mut cells = L::new(alloc);
    cells.reserve((bytes.len() / LEAST_RUN).min(rows as usize), bytes.len())?;
    let mut count = 0;
    let mut at = 0;
    while at < bytes.len() {
        let Some((position, length, end)) = read_run(&mut cells, bytes, at)? else {
            return Err(CodecFault::NotAText);
        };
        if position != count + 1 {
            return Err(CodecFault::NotAText);
        }
        if length > rows - count {
            return Err(CodecFault::NotAText);
        }
        if length == 0 {
            return Err(CodecFault::NotAText);
        }
        if !differs(&cells, count as usize) {
            return Err(CodecFault::NotAText);
        }
        repeat_at(&mut cells, count as usize, length - 1, rows - count - 1)?;
        count += length;
        at = end;
    }
    if count != rows {
        return Err(CodecFault::NotAText);
    }
    Ok(cells)
}
