//! The orders of the walked rows.
ghost use Rattle.std.specs.Prelude.{◌≡◌, ◌<◌, ◌^◌, length, map, Some, None, IfOk, IfErr};
ghost use Rattle.cs_store.specs.Fault.{MemoryOr};
ghost use Rattle.cs_order.specs.Orders.{AreOrdersOf};
ghost use Rattle.cs_rebuild.specs.Steps.{row_fault};

use crate::run::Run;
use cs_order::{OrderFault, Orders, table_orders};
use cs_rows::Table;
use cs_schema::Catalog;
use cs_store::Fault;
use std::marker::Sync;
use std::thread::Threads;

/// The orders of the walked rows. Fails if two rows have the same primary key or a range has too many rows.
pub fn orders_of<R: Threads + Sync, G>(
    run: &Run<'_, R, G>,
    catalog: &Catalog,
    walked: &Table<'_>,
) -> Result<Orders, Fault>
    requires kinds { walked.now.kinds ≡ map (λ c. c.kind) catalog.now.columns }
    requires few { length walked.now.rows < 2 ^ 32 }
    ensures ok { IfOk result (AreOrdersOf catalog.now walked.now.rows) }
    ensures sound { IfOk result (λ _. row_fault catalog.now walked.now.rows ≡ None) }
    ensures err { IfErr result (λ fault. MemoryOr fault (row_fault catalog.now walked.now.rows ≡ Some fault)) }
{
    match table_orders(run.rt, run.alloc, walked, catalog) {
        Ok(orders) => Ok(orders),
        Err(OrderFault::Memory) => Err(Fault::Memory),
        Err(OrderFault::Twice) => Err(Fault::Twice),
        Err(OrderFault::Full { p, s }) => Err(Fault::Full { p, s }),
    }
}
