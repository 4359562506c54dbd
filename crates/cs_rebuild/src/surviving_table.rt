//! The rows of the table by primary key.
ghost use Rattle.std.specs.Prelude.{◌≡◌, ◌<◌, ◌^◌, ℕ, All, false, length, map, slice_index, IfOk};
ghost use Rattle.std.specs.Option.{option_map, unwrap_or};
ghost use Rattle.cs_schema.specs.Rows.{cell};
ghost use Rattle.cs_schema.specs.Values.{kind_of, values};
ghost use Rattle.cs_rows.specs.TableView.{over};
ghost use Rattle.cs_rows.specs.WalkedView.{AreColumns, count_of, rows_of};
ghost use Rattle.cs_order.specs.Orders.{row_at};
ghost use Rattle.cs_order.specs.Tables.{is_twice, table_of};
ghost use Rattle.cs_recovery.specs.Columns.{AreColumnsOf};

use crate::columns::cells_at;
use crate::run::Run;
use cs_order::key_order;
use cs_rows::{BorrowedColumns, Table};
use cs_schema::{Catalog, Cells, Kind};
use std::alloc::{AllocError, Global};
use std::marker::Sync;
use std::mem::replace;
use std::thread::Threads;

/// Copies of a column's cells at these indices. The column is the borrowed one if there is one, and the owned one is
/// freed.
fn take_column(
    alloc: Global,
    owned: Cells,
    borrowed: Option<&Cells>,
    numbers: &[u32],
) -> Result<Cells, AllocError>
    requires { (k : ℕ) → k < length numbers.now
        → slice_index numbers.now k < length (values (unwrap_or (option_map (λ cells. cells.now) borrowed) owned)) }
    ensures kind { IfOk result (λ cells. kind_of cells ≡ kind_of (unwrap_or (option_map (λ cells. cells.now) borrowed.entry) owned)) }
    ensures cells { IfOk result (λ cells. values cells
        ≡ map (cell (values (unwrap_or (option_map (λ cells. cells.now) borrowed.entry) owned))) numbers.now) }
{
    match borrowed {
        Some(column) => cells_at(alloc, column, numbers),
        None => cells_at(alloc, &owned, numbers),
    }
}

/// The rows with these numbers, in columns. Each owned column is freed before the next is copied.
fn take_columns(
    alloc: Global,
    catalog: &Catalog,
    owned: Vec<Cells>,
    borrowed: &BorrowedColumns<'_>,
    numbers: &[u32],
) -> Result<Vec<Cells>, AllocError>
    requires columns { AreColumns (over owned.items borrowed.now) }
    requires kinds { map kind_of (over owned.items borrowed.now) ≡ map (λ c. c.kind) catalog.now.columns }
    requires below { All (λ i. i < count_of (over owned.items borrowed.now)) numbers.now }
    ensures { IfOk result (λ columns. AreColumnsOf catalog.now
        (map (row_at (rows_of (over owned.items borrowed.now) (count_of (over owned.items borrowed.now)))) numbers.now)
        columns.items) }
{
    let mut owned = owned;
    let mut columns = Vec::new(alloc);
    for c in 0..catalog.column_count() {
        let own = replace(&mut owned[c], Cells::new(alloc, Kind::Int));
        columns.push(take_column(alloc, own, borrowed.column(c), numbers)?)?;
    }
    Ok(columns)
}

/// The rows of the table by primary key, as a column of cells for each column of the table. No two rows have the same
/// key. Fails only if memory is refused.
pub fn rows_by_key<R: Threads + Sync, G>(
    run: &Run<'_, R, G>,
    catalog: &Catalog,
    walked: Table<'_>,
) -> Result<Vec<Cells>, AllocError>
    requires kinds { walked.kinds ≡ map (λ c. c.kind) catalog.now.columns }
    requires few { length walked.rows < 2 ^ 32 }
    requires once { is_twice catalog.now walked.rows ≡ false }
    ensures { IfOk result (λ columns. AreColumnsOf catalog.now (table_of catalog.now walked.entry.rows) columns.items) }
{
    let numbers = key_order(run.rt, run.alloc, &walked, catalog)?;
    let (owned, borrowed) = walked.into_columns();
    take_columns(run.alloc, catalog, owned, &borrowed, numbers.as_slice())
}
