//! Looking up names in a document.
ghost use Rattle.std.specs.Prelude.{◌≡◌};
ghost use Rattle.cs_catalog.specs.Tree.{texts};
ghost use Rattle.cs_schema.specs.Rules.{is_among, is_column, is_int_column, is_projection, leading};

use crate::document::{ColumnEntry, ProjectionEntry};

/// Whether a name is one of these names.
pub fn is_among(name: &str, names: &[&str]) -> bool
    ensures { result ≡ is_among name.now (texts names.now) }
{
    names.contains(&name)
}

/// Whether some column has this name.
pub fn is_column(columns: &[ColumnEntry], name: &str) -> bool
    ensures { result ≡ is_column columns.now name.now }
{
    for column in columns {
        if column.name == name {
            return true;
        }
    }
    false
}

/// Whether some column of ints has this name.
pub fn is_int_column(columns: &[ColumnEntry], name: &str) -> bool
    ensures { result ≡ is_int_column columns.now name.now }
{
    columns
        .iter()
        .any(|column| column.name == name && column.kind == "int")
}

/// Whether some projection has this name.
pub fn is_projection(projections: &[ProjectionEntry], name: &str) -> bool
    ensures { result ≡ is_projection projections.now name.now }
{
    for projection in projections {
        if projection.name == name {
            return true;
        }
    }
    false
}

/// The first sort column, or the empty text if there is none.
pub fn leading<'a>(projection: &ProjectionEntry<'a>) -> &'a str
    ensures { result.now ≡ leading projection.now }
{
    match projection.sort.first() {
        Some(name) => name,
        None => "",
    }
}
