//! Columns that a walk fills.
ghost use Rattle.std.specs.Prelude.{◌≡◌, ◌<◌, ◌++◌, ◌∷◌, [], ℕ, length, IfOk, OnOk, slice_index_or};
ghost use Rattle.cs_schema.specs.declared.kinds.Kind.{Kind as KindValue};
ghost use Rattle.cs_schema.specs.CatalogRules.{IsCatalog};
ghost use Rattle.cs_schema.specs.Rows.{cell};
ghost use Rattle.cs_schema.specs.Values.{values, kind_of};
ghost use Rattle.cs_rows.specs.Columns.{ColumnsFit};
ghost use Rattle.cs_rows.specs.Survivors.{image_row};

use crate::numbers::kind;
use cs_delta::image::Image;
use cs_schema::{Catalog, Cells};
use std::alloc::{AllocError, Global};

/// An empty column for each column of the table, with room for `room` cells, and for eight bytes of each text.
pub(crate) fn new_columns(
    alloc: Global,
    catalog: &Catalog,
    room: usize,
) -> Result<Vec<Cells>, AllocError>
    ensures fit { IfOk result (λ columns. ColumnsFit catalog.now columns.items) }
    ensures rules { IsCatalog catalog.now }
    ensures none { IfOk result (λ columns. (c : ℕ) (d : Cells) → c < length catalog.now.columns → values (slice_index_or columns.items c d) ≡ []) }
{
    let mut columns: Vec<Cells> = Vec::new(alloc);
    for c in 0..catalog.column_count() {
        let mut cells = Cells::new(alloc, kind(catalog, c));
        cells.reserve(room, room.saturating_mul(8))?;
        columns.push(cells)?;
    }
    Ok(columns)
}

/// Appends the cell of an image's row to a column.
pub(crate) fn push_cell(
    cells: &mut Cells,
    image: &Image,
    row: u32,
    j: usize,
) -> Result<(), AllocError>
    requires row { row < length image.now.image.pairs }
    requires there { j < length image.now.kinds }
    requires kind { kind_of cells.old ≡ slice_index_or image.now.kinds j KindValue.Int }
    ensures kind { kind_of cells.new ≡ kind_of cells.old }
    ensures ok { OnOk result (values cells.new ≡ values cells.old ++ cell (image_row image.now.image row) j ∷ []) }
{
    cells.push_cell(image.column(j), row as usize)
}
