//! Concatenation of walked parts, one column at a time.
ghost use Rattle.std.specs.Prelude.{◌≡◌, ◌<◌, ◌≤◌, ◌*◌, All, IfOk, length, map};
ghost use Rattle.std.specs.List.{flat_map};
ghost use Rattle.cs_schema.specs.CatalogData.{column};
ghost use Rattle.cs_schema.specs.Values.{values, kind_of};
ghost use Rattle.cs_schema.specs.Rows.{cell};
ghost use Rattle.cs_rows.specs.WalkedView.{IsWide};

use crate::numbers::kind;
use crate::walked::Walked;
use cs_schema::limits::TEXT_BYTES;
use cs_schema::{Catalog, Cells};
use std::alloc::{AllocError, Global};

/// The total number of rows of the parts, or `usize::MAX` if it does not fit 64 bits.
pub fn rows_in(pieces: &[Walked]) -> usize
    ensures wide { All IsWide pieces.now }
    ensures few { result ≤ length (flat_map (λ piece. piece.rows) pieces.now) }
{
    let mut rows: usize = 0;
    for piece in pieces {
        rows = rows.saturating_add(piece.rows());
    }
    rows
}

/// The total number of bytes of the parts' texts in a column: at most 255 for each row.
pub(crate) fn text_size(catalog: &Catalog, pieces: &[Walked], c: usize) -> usize
    requires column { c < length catalog.now.columns }
    requires kinds { All (λ piece. piece.kinds ≡ map (λ c. c.kind) catalog.now.columns) pieces.now }
    ensures { result ≤ 255 * length (flat_map (λ piece. piece.rows) pieces.now) }
{
    let mut size: usize = 0;
    for piece in pieces {
        size = size.saturating_add(piece.column(c).text_size());
    }
    size.min(rows_in(pieces).saturating_mul(TEXT_BYTES))
}

/// The cells of one column of all parts, one part after the other. Fails only if memory is refused.
pub fn join_column(
    alloc: Global,
    catalog: &Catalog,
    pieces: &[Walked],
    c: usize,
) -> Result<Cells, AllocError>
    requires column { c < length catalog.now.columns }
    requires kinds { All (λ piece. piece.kinds ≡ map (λ c. c.kind) catalog.now.columns) pieces.now }
    ensures kind { IfOk result (λ cells. kind_of cells ≡ (column catalog.now c).kind) }
    ensures cells { IfOk result (λ cells. values cells ≡ map (λ row. cell row c) (flat_map (λ piece. piece.rows) pieces.now)) }
{
    let mut joined = Cells::new(alloc, kind(catalog, c));
    joined.reserve(rows_in(pieces), text_size(catalog, pieces, c))?;
    for piece in pieces {
        joined.extend(piece.column(c), 0, piece.rows())?;
    }
    Ok(joined)
}
