//! Columns that are filled record by record.
ghost use Rattle.std.specs.Prelude.{◌≡◌, ◌<◌, ℕ, [], map, IfOk};
ghost use Rattle.cs_csv.specs.Faults.{cells_at, kinds_of};

use cs_schema::{Cells, Column};
use std::alloc::{AllocError, Global};

/// An empty column for each column of a table.
pub(crate) fn new_cells(alloc: Global, columns: &[Column]) -> Result<Vec<Cells>, AllocError>
    ensures kinds { IfOk result (λ cells. kinds_of cells.items ≡ map (λ c. c.kind) columns.now) }
    ensures none { IfOk result (λ cells. (c : ℕ) → cells_at cells.items c ≡ []) }
{
    let mut cells = Vec::new(alloc);
    for c in 0..columns.len() {
        let column = &columns[c];
        cells.push(Cells::new(alloc, column.kind))?;
    }
    Ok(cells)
}
