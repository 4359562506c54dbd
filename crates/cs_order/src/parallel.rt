//! The orders of walked rows. The projections are sorted in parallel.
ghost use Rattle.std.specs.Prelude.{◌≡◌, ◌<◌, ◌^◌, false, IfOk, IfErr, None, length, map};
ghost use Rattle.std.specs.List.{AllZip, range_with_len};
ghost use Rattle.cs_order.specs.Tables.{is_twice, table_of};
ghost use Rattle.cs_order.specs.Orders.{AreOrdersOf, first_full};
ghost use Rattle.cs_order.specs.Numbers.{AreAllRows};
ghost use Rattle.cs_order.specs.Faults.{IsOrderFault};
ghost use Rattle.cs_order.specs.Sides.{IsOrderOrFault};

use crate::all_orders::Orders;
use crate::fault::OrderFault;
use crate::segments::{ProjectionOrder, ProjectionSorter};
use crate::sorter::{Sorter, listed_or};
use cs_rows::{Table, Walked};
use cs_schema::Catalog;
use rayon::prelude::*;
use std::alloc::{AllocError, Global};
use std::thread::Threads;

/// The orders of all projections of walked rows: a thin form over `table_orders`, which borrows the walk's columns.
///
/// Fails with `Twice` if two rows have the same primary key, else with `Full` at the first range that has more than
/// 1,048,576 rows, and with `Memory` only if memory is refused.
pub fn orders<R: Threads + Sync>(
    rt: &R,
    alloc: Global,
    walked: &Walked,
    catalog: &Catalog,
) -> Result<Orders, OrderFault>
    requires kinds { walked.now.kinds ≡ map (λ c. c.kind) catalog.now.columns }
    requires few { length walked.now.rows < 2 ^ 32 }
    ensures orders { IfOk result (AreOrdersOf catalog.now walked.now.rows) }
    ensures once { IfOk result (λ _. is_twice catalog.now walked.now.rows ≡ false) }
    ensures fit { IfOk result (λ _. first_full catalog.now (table_of catalog.now walked.now.rows) ≡ None) }
    ensures fault { IfErr result (IsOrderFault catalog.now walked.now.rows) }
{
    match Table::borrowing(alloc, walked) {
        Ok(table) => table_orders(rt, alloc, &table, catalog),
        Err(_) => Err(OrderFault::Memory),
    }
}

/// The orders of all projections of a table's rows.
///
/// Fails with `Twice` if two rows have the same primary key, else with `Full` at the first range that has more than
/// 1,048,576 rows, and with `Memory` only if memory is refused.
///
/// The result takes 4 bytes for each row and projection, and 4 more if a join index leads to the projection. Temporary
/// memory is 8 bytes a row, 2 more for each projection, and 8 to 28 more for each projection that is sorted.
pub fn table_orders<R: Threads + Sync>(
    rt: &R,
    alloc: Global,
    walked: &Table<'_>,
    catalog: &Catalog,
) -> Result<Orders, OrderFault>
    requires kinds { walked.now.kinds ≡ map (λ c. c.kind) catalog.now.columns }
    requires few { length walked.now.rows < 2 ^ 32 }
    ensures orders { IfOk result (AreOrdersOf catalog.now walked.now.rows) }
    ensures once { IfOk result (λ _. is_twice catalog.now walked.now.rows ≡ false) }
    ensures fit { IfOk result (λ _. first_full catalog.now (table_of catalog.now walked.now.rows) ≡ None) }
    ensures fault { IfErr result (IsOrderFault catalog.now walked.now.rows) }
{
    let sorter = Sorter {
        rt,
        alloc,
        walked,
        catalog,
    };
    let all = sorter.all_rows()?;
    let sorted = sorter.sort_by_key(&all)?;
    let by_key = listed_or(&sorted, &all);
    if sorter.key_stands_twice(by_key) {
        return Err(OrderFault::Twice);
    }
    let mut made = made_orders(&sorter, &all, by_key)?;
    let mut projections = Vec::new(alloc);
    for _p in 0..catalog.projection_count() {
        // there are few projections, so moving the others is cheap
        let order = made.remove(0)?;
        projections.push(order)?;
    }
    Ok(Orders {
        rows: walked.rows(),
        projections,
    })
}

/// The order of each projection, or the fault that it has instead, made in parallel.
fn made_orders<R: Threads + Sync>(
    sorter: &Sorter<'_, R>,
    all: &[u32],
    by_key: &[u32],
) -> Result<Vec<Result<ProjectionOrder, OrderFault>>, AllocError>
    requires rows { AreAllRows sorter.now.catalog.now sorter.now.walked.now.rows all.now by_key.now }
    ensures { IfOk result (λ made. AllZip (IsOrderOrFault sorter.now.catalog.now sorter.now.walked.now.rows)
        (range_with_len 0 (length sorter.now.catalog.now.projections)) made.items) }
{
    (0..sorter.catalog.projection_count())
        .into_par_iter()
        // each projection is worth a thread
        .with_min_len(1)
        .map(
            |p: u16| -> Result<ProjectionOrder, OrderFault>
                requires rows { AreAllRows sorter.now.catalog.now sorter.now.walked.now.rows all.now by_key.now }
                requires projection { p < length sorter.now.catalog.now.projections }
                ensures { IsOrderOrFault sorter.entry.now.catalog.now sorter.entry.now.walked.now.rows p result }
            { order_of(sorter, p, all, by_key) },
        )
        .collect(sorter.rt, sorter.alloc)
}

/// The order of a projection, given all rows in walk order and by key.
fn order_of<R: Threads + Sync>(
    sorter: &Sorter<'_, R>,
    p: u16,
    all: &[u32],
    by_key: &[u32],
) -> Result<ProjectionOrder, OrderFault>
    requires rows { AreAllRows sorter.now.catalog.now sorter.now.walked.now.rows all.now by_key.now }
    requires projection { p < length sorter.now.catalog.now.projections }
    ensures { IsOrderOrFault sorter.now.catalog.now sorter.now.walked.now.rows p result }
{
    let projection_sorter = ProjectionSorter {
        rt: sorter.rt,
        alloc: sorter.alloc,
        order: sorter.order(p),
    };
    let (rows, sorted) = projection_sorter.presorted_rows(all, by_key);
    projection_sorter.projection_order(sorted, rows)
}
