//! The table's columns from the rows that a walk has followed, gathered in parallel. Columns that are whole in the
//! anchor's image are borrowed.
ghost use Rattle.std.specs.Prelude.{◌≡◌, ◌<◌, All, length, IfOk};
ghost use Rattle.cs_schema.specs.CatalogRules.{IsCatalog};
ghost use Rattle.cs_rows.specs.Columns.{ColumnsFit};
ghost use Rattle.cs_rows.specs.RowSteps.{AreRows};
ghost use Rattle.cs_rows.specs.TableView.{over};
ghost use Rattle.cs_rows.specs.PlanWalks.{IsFollowed, followed_rows, walked_rows};
ghost use Rattle.cs_rebuild.specs.Walking.{HasTableKinds, AreBorrowedFromAnchor, IsTableColumn};

use cs_rows::{BorrowedColumns, FollowedRows, PlanWalk, Table};
use cs_schema::Cells;
use rayon::prelude::*;
use std::alloc::{AllocError, Global};
use std::marker::Sync;
use std::thread::Threads;

/// For each column of the table, the column of the anchor's image that it borrows, if any.
fn borrowed_columns<'a>(
    alloc: Global,
    walk: &PlanWalk<'_, 'a>,
) -> Result<BorrowedColumns<'a>, AllocError>
    ensures { IfOk result (λ borrowed. AreBorrowedFromAnchor walk.now borrowed) }
{
    let mut borrowed = BorrowedColumns::none(alloc);
    for c in 0..walk.column_count() {
        borrowed.push(walk.lone_column(c))?;
    }
    Ok(borrowed)
}

/// The gathered cells of a column, or no cells if the column is borrowed.
fn gather_unless_borrowed(
    alloc: Global,
    walk: &PlanWalk<'_, '_>,
    parts: &[FollowedRows],
    borrowed: &BorrowedColumns<'_>,
    c: usize,
) -> Result<Cells, AllocError>
    requires parts { All (IsFollowed walk.now) parts.now }
    requires whole { followed_rows walk.now parts.now ≡ walked_rows walk.now }
    requires column { c < length walk.now.survivors.now.catalog.columns }
    requires borrowed { AreBorrowedFromAnchor walk.now borrowed.now }
    ensures { IfOk result (IsTableColumn walk.now borrowed.now c) }
{
    if borrowed.has(c) {
        return Ok(Cells::new(alloc, walk.kind(c)));
    }
    walk.gather(alloc, parts, c)
}

/// The columns of the table that are not borrowed, gathered in parallel.
fn gather_columns<R: Threads + Sync>(
    rt: &R,
    alloc: Global,
    walk: &PlanWalk<'_, '_>,
    parts: &[FollowedRows],
    borrowed: &BorrowedColumns<'_>,
) -> Result<Vec<Cells>, AllocError>
    requires parts { All (IsFollowed walk.now) parts.now }
    requires whole { followed_rows walk.now parts.now ≡ walked_rows walk.now }
    requires borrowed { AreBorrowedFromAnchor walk.now borrowed.now }
    ensures fit { IfOk result (λ columns. ColumnsFit walk.now.survivors.now.catalog (over columns.items borrowed.now)) }
    ensures rows { IfOk result (λ columns. AreRows walk.now.survivors.now.catalog (walked_rows walk.now) (over columns.items borrowed.now)) }
    ensures rules { IsCatalog walk.now.survivors.now.catalog }
{
    (0..walk.column_count())
        .into_par_iter()
        // each column is worth a thread
        .with_min_len(1)
        .map(
            |c: usize| -> Result<Cells, AllocError>
                requires parts { All (IsFollowed walk.now) parts.now }
                requires whole { followed_rows walk.now parts.now ≡ walked_rows walk.now }
                requires column { c < length walk.now.survivors.now.catalog.columns }
                requires borrowed { AreBorrowedFromAnchor walk.now borrowed.now }
                ensures { IfOk result (IsTableColumn walk.entry.now borrowed.entry.now c) }
            { gather_unless_borrowed(alloc, walk, parts, borrowed, c) },
        )
        .collect::<Result<Vec<Cells>, AllocError>>(rt, alloc)?
}

/// The table of the rows to which the anchor's rows lead, given the parts in which all of them were followed.
pub fn gather_table<'a, R: Threads + Sync>(
    rt: &R,
    alloc: Global,
    walk: &PlanWalk<'_, 'a>,
    parts: &[FollowedRows],
) -> Result<Table<'a>, AllocError>
    requires parts { All (IsFollowed walk.now) parts.now }
    requires whole { followed_rows walk.now parts.now ≡ walked_rows walk.now }
    ensures kinds { IfOk result (HasTableKinds walk.now.survivors.now.catalog) }
    ensures rows { IfOk result (λ table. table.rows ≡ walked_rows walk.now) }
{
    let borrowed = borrowed_columns(alloc, walk)?;
    let columns = gather_columns(rt, alloc, walk, parts, &borrowed)?;
    Ok(Table::of_columns(columns, borrowed))
}
