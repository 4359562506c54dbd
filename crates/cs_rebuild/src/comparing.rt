//! Comparing an image with rows of the table. A large image is compared by several threads.
ghost use Rattle.std.specs.Prelude.{◌≡◌, ◌<◌, ◌≤◌, ◌↔◌, ℕ, IsTrue, List, length, map, slice_index};
ghost use Rattle.cs_schema.specs.declared.cells.Value.{Value};
ghost use Rattle.cs_schema.specs.CatalogData.{projection};
ghost use Rattle.cs_schema.specs.Lists.{IsIn};
ghost use Rattle.cs_schema.specs.Rows.{project};
ghost use Rattle.cs_schema.specs.Values.{values};
ghost use Rattle.cs_segment.specs.SegmentData.{kinds_at};
ghost use Rattle.cs_delta.specs.Image.{image_rows};
ghost use Rattle.cs_order.specs.Orders.{row_at};
ghost use Rattle.cs_rebuild.specs.Comparing.{AreAlike, AreBeside, AreComparable, IsColumnThere};

use crate::thresholds::PART;
use cs_delta::Image;
use cs_rows::Table;
use cs_schema::{Catalog, Cells};
use std::thread::{Threads, join};

/// Whether the cells `start..end` equal those of a column at the rows with these numbers.
fn has_cells(cells: &Cells, column: &Cells, numbers: &[u32], start: usize, end: usize) -> bool
    requires beside { AreBeside (values cells.now) (values column.now) numbers.now }
    requires within { end ≤ length numbers.now }
    ensures { IsTrue result ↔ AreAlike (values cells.now) (values column.now) numbers.now start end }
{
    for k in start..end {
        if !cells.same(k, column, numbers[k] as usize) {
            return false;
        }
    }
    true
}

/// Whether the first `end` cells equal those of a column at the rows with these numbers. Parts of `PART` cells are
/// compared in parallel.
fn has_first<R: Threads>(rt: &R, cells: &Cells, column: &Cells, numbers: &[u32], end: usize) -> bool
    requires beside { AreBeside (values cells.now) (values column.now) numbers.now }
    requires within { end ≤ length numbers.now }
    ensures { IsTrue result ↔ AreAlike (values cells.now) (values column.now) numbers.now 0 end }
{
    let part = PART as usize;
    if end <= part {
        return has_cells(cells, column, numbers, 0, end);
    }
    let start = end - part;
    let (here, before) = join(
        rt,
        || -> bool
            requires { AreBeside (values cells.now) (values column.now) numbers.now × (end ≤ length numbers.now) }
            ensures { IsTrue result ↔ AreAlike (values cells.entry.now) (values column.entry.now) numbers.entry.now start end }
        { has_cells(cells, column, numbers, start, end) },
        || -> bool
            requires { AreBeside (values cells.now) (values column.now) numbers.now × (start ≤ length numbers.now) }
            ensures { IsTrue result ↔ AreAlike (values cells.entry.now) (values column.entry.now) numbers.entry.now 0 start }
        { has_first(rt, cells, column, numbers, start) },
    );
    here && before
}

/// Whether column `j` of an image has the cells of the rows with these numbers.
fn has_column<R: Threads>(
    rt: &R,
    image: &Image,
    walked: &Table<'_>,
    columns: &[u8],
    numbers: &[u32],
    j: usize,
) -> bool
    requires comparable { AreComparable image.now walked.now columns.now numbers.now }
    requires column { j < length columns.now }
    ensures { IsTrue result ↔ IsColumnThere image.now walked.now columns.now numbers.now j }
{
    let column = walked.column(columns[j] as usize);
    has_first(rt, image.column(j), column, numbers, numbers.len())
}

/// Whether an image has the walked rows with these numbers, projected to the columns of a projection.
pub fn has_rows<R: Threads>(
    rt: &R,
    catalog: &Catalog,
    p: u16,
    image: &Image,
    walked: &Table<'_>,
    numbers: &[u32],
) -> bool
    requires exists { p < length catalog.now.projections }
    requires kinds { image.now.kinds ≡ kinds_at catalog.now p }
    requires widths { (x : List Value) → IsIn x (image_rows image.now.image) → length x ≡ length (projection catalog.now p).columns }
    requires walked_kinds { walked.now.kinds ≡ map (λ c. c.kind) catalog.now.columns }
    requires below { (k : ℕ) → k < length numbers.now → slice_index numbers.now k < length walked.now.rows }
    ensures { IsTrue result ↔ (image_rows image.now.image ≡ map (project catalog.now p) (map (row_at walked.now.rows) numbers.now)) }
{
    let rows = numbers.len();
    if image.rows() as usize != rows {
        return false;
    }
    let width = catalog.width(p);
    let columns = catalog.columns_of(p);
    for j in 0..width {
        if !has_column(rt, image, walked, columns, numbers, j) {
            return false;
        }
    }
    true
}
