//! Ranges with too many rows, and at which value to cut them.
ghost use Rattle.std.specs.Prelude.{◌≡◌, ◌<◌, Some, IfOk, length};
ghost use Rattle.cs_recovery.specs.BuildAnswers.{build_fault};
ghost use Rattle.cs_recovery.specs.Columns.{AreTableColumns, rows_in};
ghost use Rattle.cs_store.specs.declared.fault.Fault.{Fault};
ghost use Rattle.cs_tables.specs.Cutting.{cut_of, values_in};
ghost use Rattle.cs_tables.specs.Loading.{IsFull};

use crate::load_fault::FullRange;
use cs_schema::{Catalog, Cells, Value, limits};
use std::alloc::{AllocError, Global};

/// By which values a projection is cut, of the rows in the range of a segment.
fn values_in_range(
    alloc: Global,
    catalog: &Catalog,
    rows: &[Cells],
    p: u16,
    s: u16,
) -> Result<Vec<Value>, AllocError>
    requires projection { p < length catalog.now.projections }
    requires columns { AreTableColumns catalog.now rows.now }
    ensures { IfOk result (λ found. found.items ≡ values_in catalog.now p s (rows_in rows.now)) }
{
    let first = catalog.projection(p).sort[0];
    let cells = &rows[first as usize];
    let mut found = Vec::new(alloc);
    for row in 0..cells.len() {
        if catalog.segment_of_cell(p, cells, row) == s {
            found.push(cells.cell(row))?;
        }
    }
    Ok(found)
}

/// The value behind as many as fit into a segment, if a lesser one comes before.
fn cut_of(sorted: &[Value]) -> Option<Value>
    ensures { result ≡ cut_of sorted.now }
{
    let least = sorted.get(0)?;
    let cut = sorted.get(limits::SEGMENT_ROWS as usize)?;
    if least == cut { None } else { Some(cut.copy()) }
}

/// The range of this segment, which has too many rows.
pub(crate) fn full_range(
    alloc: Global,
    catalog: &Catalog,
    rows: &[Cells],
    p: u16,
    s: u16,
) -> Result<FullRange, AllocError>
    requires projection { p < length catalog.now.projections }
    requires columns { AreTableColumns catalog.now rows.now }
    requires refused { build_fault catalog.now (rows_in rows.now) ≡ Some (Fault.Full p s) }
    ensures { IfOk result (IsFull catalog.now (rows_in rows.now)) }
{
    let mut values = values_in_range(alloc, catalog, rows, p, s)?;
    let count = values.as_slice().len();
    values.sort()?;
    Ok(FullRange {
        p,
        s,
        rows: count,
        cut: cut_of(values.as_slice()),
    })
}
