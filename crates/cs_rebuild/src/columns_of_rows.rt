//! Rows that a caller passes in columns. Nothing is copied.
ghost use Rattle.std.specs.Prelude.{◌↔◌, All, FitsSigned, IsTrue};
ghost use Rattle.std.specs.Int.{w64};
ghost use Rattle.cs_schema.specs.Values.{IsOfKind, kind_of, values};
ghost use Rattle.cs_recovery.specs.Columns.{AreTableColumns};
ghost use Rattle.cs_rebuild.specs.Building.{IsOneKind, IsShortText};

use cs_schema::{Catalog, Cells, Texts};

/// Whether these are columns for `build`: one for each column of the catalog's table, of its kind, and all of the same
/// length.
pub fn are_columns(catalog: &Catalog, rows: &[Cells]) -> bool
    ensures { IsTrue result ↔ AreTableColumns catalog.now rows.now }
{
    let count = catalog.column_count();
    if rows.len() != count {
        return false;
    }
    for c in 0..count {
        if rows[c].kind() != catalog.kind(c as u8) {
            return false;
        }
        if rows[c].len() != rows[0].len() {
            return false;
        }
    }
    true
}

/// Establishes that ints have 64 bits, as their type says.
fn assert_int_bounds(ints: &[i64])
    ensures { All (FitsSigned w64) ints.now }
{
    for int in ints {
        let _fits = *int;
    }
}

/// Establishes that texts are UTF-8 of at most 255 bytes, as their type says.
fn assert_text_bounds(texts: &Texts)
    ensures { All IsShortText texts.now }
{
    for at in 0..texts.len() {
        let _fits = texts.get(at);
    }
}

/// Establishes that the cells of a column are of its kind, as its type says.
fn assert_column_bounds(column: &Cells)
    ensures { IsOneKind column.now }
{
    match column {
        Cells::Ints(ints) => assert_int_bounds(ints),
        Cells::Texts(texts) => assert_text_bounds(texts),
    }
}

/// Establishes that the cells of each column are of its kind.
pub fn assert_cell_bounds(rows: &[Cells])
    ensures { All IsOneKind rows.now }
{
    for column in rows {
        assert_column_bounds(column);
    }
}
