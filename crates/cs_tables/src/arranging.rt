//! Arranging the columns of one catalog in the order of another.
ghost use Rattle.std.specs.Prelude.{◌≡◌, None, IfOk, length};
ghost use Rattle.cs_csv.specs.Columns.{NamesDiffer};
ghost use Rattle.cs_tables.specs.ByName.{AreArranged};
ghost use Rattle.cs_tables.specs.Differences.{first_difference, first_without};

use crate::differences::column_named;
use cs_schema::{Catalog, Cells, Column, Kind};
use std::alloc::{AllocError, Global};
use std::mem::replace;

/// Columns in the order of others with the same names.
fn arrange_columns(
    alloc: Global,
    old: &[Column],
    new: &[Column],
    mut columns: Vec<Cells>,
) -> Result<Vec<Cells>, AllocError>
    requires differ { NamesDiffer new.now }
    requires named { first_without new.now old.now ≡ None }
    requires count { length columns.items ≡ length old.now }
    ensures { IfOk result (λ arranged. AreArranged old.now new.now columns.items arranged.items) }
{
    let mut arranged = Vec::new(alloc);
    for c in 0..new.len() {
        let column = &new[c];
        let place = column_named(old, column.name.as_str());
        let cells = replace(&mut columns[place], Cells::new(alloc, Kind::Int));
        arranged.push(cells)?;
    }
    Ok(arranged)
}

/// The columns of a table in the order of a new catalog with the same columns. No cell is copied.
pub(crate) fn arrange(
    alloc: Global,
    old: &Catalog,
    new: &Catalog,
    columns: Vec<Cells>,
) -> Result<Vec<Cells>, AllocError>
    requires same { first_difference old.now new.now ≡ None }
    requires count { length columns.items ≡ length old.now.columns }
    ensures { IfOk result (λ arranged. AreArranged old.now.columns new.now.columns columns.items arranged.items) }
{
    let _rules = (old.projection_count(), new.projection_count());
    arrange_columns(alloc, &old.columns, &new.columns, columns)
}
