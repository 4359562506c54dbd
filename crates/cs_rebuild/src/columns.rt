//! The columns of a projection by their numbers in the table, and copies of cells.
ghost use Rattle.std.specs.Prelude.{◌≡◌, ◌<◌, ℕ, IfOk, length, map, slice_index};
ghost use Rattle.cs_schema.specs.CatalogData.{projection};
ghost use Rattle.cs_schema.specs.Rows.{cell};
ghost use Rattle.cs_schema.specs.Values.{kind_of, values};

use cs_schema::{Catalog, Cells};
use std::alloc::{AllocError, Global};

/// The number in the table of the `j`-th column of a projection.
pub fn table_column(catalog: &Catalog, p: u16, j: usize) -> usize
    requires projection { p < length catalog.now.projections }
    requires column { j < length (projection catalog.now p).columns }
    ensures number { result ≡ slice_index (projection catalog.now p).columns j }
    ensures exists { result < length catalog.now.columns }
{
    catalog.columns_of(p)[j] as usize
}

/// Copies of a column's cells at these indices, in this order.
pub fn cells_at(alloc: Global, column: &Cells, numbers: &[u32]) -> Result<Cells, AllocError>
    requires { (k : ℕ) → k < length numbers.now → slice_index numbers.now k < length (values column.now) }
    ensures kind { IfOk result (λ cells. kind_of cells ≡ kind_of column.now) }
    ensures cells { IfOk result (λ cells. values cells ≡ map (cell (values column.now)) numbers.now) }
{
    let mut cells = Cells::new(alloc, column.kind());
    cells.push_at(column, numbers)?;
    Ok(cells)
}
