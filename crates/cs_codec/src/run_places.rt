//! Writing runs directly from the cells of a column at given indices, a range of positions at a time.
ghost use Rattle.std.specs.Prelude.{◌≡◌, ◌+◌, ◌≤◌, ◌<◌, ℕ, drop, length, min, slice_get, slice_index, Some, IfOk};
ghost use Rattle.cs_codec.specs.Columns.{cells_at};
ghost use Rattle.cs_codec.specs.RunParts.{IsNextStart, part_text};
ghost use Rattle.cs_codec.specs.Texts.{kept};

use crate::cell::Cell;
use crate::column::Column;
use crate::numbers::write_number;
use std::alloc::{AllocError, Global};

/// The end of the run that the cell at position `start` belongs to, or `stop` if the run goes further.
fn run_end<C: Cell, L: Column<C>>(column: &L, places: &[u32], start: usize, stop: usize) -> usize
    requires within { (k : ℕ) → k < length places.now → slice_index places.now k < length (L.cells column.now) }
    requires order { (start < stop) × (stop ≤ length places.now) }
    ensures within { (start < result) × (result ≤ stop) }
    ensures end { (x : C) → slice_get (cells_at (L.cells column.now) places.now) start ≡ Some x
        → result ≡ min stop (start + 1 + kept C.eq x (drop (start + 1) (cells_at (L.cells column.now) places.now))) }
{
    let value = places[start] as usize;
    let mut end = start + 1;
    while end < stop && column.same(value, column, places[end] as usize) {
        end += 1;
    }
    end
}

/// The first of the positions `from..to` at which a run begins, or `to` if none does. No cell after `to` is looked at.
fn run_start<C: Cell, L: Column<C>>(column: &L, places: &[u32], from: usize, to: usize) -> usize
    requires within { (k : ℕ) → k < length places.now → slice_index places.now k < length (L.cells column.now) }
    requires order { (from ≤ to) × (to ≤ length places.now) }
    ensures { IsNextStart C.bytes C.eq (cells_at (L.cells column.now) places.now) from to result }
{
    if from == 0 || from == to {
        return from;
    }
    run_end(column, places, from - 1, to)
}

/// A part of the body of the column that has the cells at `places` of `column`: the runs that begin at its positions
/// `from..to`. The last of them may end after `to`.
pub fn write_part<C: Cell, L: Column<C>>(
    alloc: Global,
    column: &L,
    places: &[u32],
    from: usize,
    to: usize,
) -> Result<Vec<u8>, AllocError>
    requires within { (k : ℕ) → k < length places.now → slice_index places.now k < length (L.cells column.now) }
    requires few { length places.now ≤ 1048576 }
    requires order { (from ≤ to) × (to ≤ length places.now) }
    ensures { IfOk result (λ out. out.items ≡ part_text C.bytes C.eq (cells_at (L.cells column.now) places.now) from to) }
{
    let numbers = (to - from).saturating_mul(8);
    let room = column.size_at(&places[from..to]).saturating_add(numbers);
    let mut out = Vec::with_capacity(alloc, room)?;
    let mut at = run_start(column, places, from, to);
    while at < to {
        let end = run_end(column, places, at, places.len());
        column.write(places[at] as usize, &mut out)?;
        write_number(&mut out, at as u32 + 1)?;
        write_number(&mut out, (end - at) as u32)?;
        at = end;
    }
    Ok(out)
}
