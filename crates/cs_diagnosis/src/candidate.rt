//! A table that a store may hold.
ghost use Rattle.std.specs.Prelude.{◌≡◌, false};
ghost use Rattle.cs_order.specs.Tables.{is_twice};

use crate::conflicts::Conflicts;
use cs_rebuild::{OrderedStore, Run, rows_by_key};
use cs_schema::Cells;
use std::alloc::AllocError;
use std::marker::Sync;
use std::thread::Threads;

/// The table to which the survivors of a loss lead, with its orders and its conflicts.
#[derive(Drop)]
pub struct Candidate<'a> {
    pub store: OrderedStore<'a>,
    pub conflicts: Conflicts,
    pub ghost once: { is_twice store.catalog.now store.walked.rows ≡ false },
}

impl Candidate<'_> {
    ghost use Rattle.std.specs.Prelude.{IfOk};
    ghost use Rattle.cs_recovery.specs.Columns.{AreColumnsOf};
    ghost use Rattle.cs_rebuild.specs.OnStore.{table_on};

    /// The rows of the table by primary key: a column of cells for each column of the table. Its orders are freed
    /// first, and each walked column once it is copied. Fails only if memory is refused.
    pub fn columns<R: Threads + Sync, G>(
        self,
        run: &Run<'_, R, G>,
    ) -> Result<Vec<Cells>, AllocError>
        ensures { IfOk result (λ columns. AreColumnsOf self.entry.store.catalog.now (table_on self.entry.store) columns.items) }
    {
        let OrderedStore {
            catalog,
            walked,
            orders,
            ..
        } = self.store;
        drop(orders);
        rows_by_key(run, catalog, walked)
    }
}
