//! Walked rows of given columns, for tests and measurements.
ghost use Rattle.std.specs.Prelude.{◌≡◌, IfSome, IfNone, map};
ghost use Rattle.cs_schema.specs.Values.{kind_of};
ghost use Rattle.cs_rows.specs.WalkedView.{walked_data, AreColumns};

use cs_rows::Walked;
use cs_schema::{Catalog, Cells};

/// The rows of these columns, if they have the catalog's kinds and all have the same length.
pub fn walked_rows(catalog: &Catalog, columns: Vec<Cells>) -> Option<Walked>
    ensures kinds { IfSome result (λ walked. walked.kinds ≡ map (λ c. c.kind) catalog.now.columns) }
    ensures refused { IfNone result (AreColumns columns.items → map kind_of columns.items ≡ map (λ c. c.kind) catalog.now.columns → ⊥) }
    ensures rows { IfSome result (λ walked. walked ≡ walked_data columns.items) }
{
    if columns.is_empty() || columns.len() != catalog.columns.len() {
        return None;
    }
    let rows = columns[0].len();
    for c in 0..columns.len() {
        if columns[c].len() != rows {
            return None;
        }
        if columns[c].kind() != catalog.columns[c].kind {
            return None;
        }
    }
    Some(Walked::from_columns(columns))
}
