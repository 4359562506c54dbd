//! A new store from rows.
ghost use Rattle.std.specs.Prelude.{◌≡◌};
ghost use Rattle.cs_store.specs.FileSet.{contents_of};
ghost use Rattle.cs_recovery.specs.BuildAnswers.{BuildClauses, IsBuildAnswer, every_site as sites_of};
ghost use Rattle.cs_recovery.specs.Columns.{AreTableColumns, rows_in};

use crate::columns_of_rows::assert_cell_bounds;
use crate::ordered_store::store_of;
use crate::ordering::orders_of;
use crate::run::Run;
use crate::sound_store::SoundStore;
use crate::writing::write_files;
use cs_board::Gate;
use cs_rows::{Survivors, Table};
use cs_schema::{Catalog, Cells, Loss};
use cs_store::{Fault, FileSet};
use std::marker::Sync;
use std::thread::Threads;

/// All sites of a catalog.
fn every_site(catalog: &Catalog) -> Loss
    ensures { result ≡ sites_of catalog.now }
{
    let _rules = catalog.projection_count();
    let mut loss = Loss::none();
    for site in 0..catalog.sites {
        loss = loss.with(site + 1);
    }
    loss
}

/// The files of a new store. Its table has the rows of these columns, in any order: one column of cells for each column
/// of the table, as `are_columns` tests. No column is copied.
///
/// Returns the first fault that applies: `Twice` if two rows have the same primary key, `Full` of the first range with
/// more than 1,048,576 rows. `Memory` may take the place of any answer, and does if there are more than 4,294,967,295
/// rows, for which no catalog has room.
pub fn build<R: Threads + Sync, G: Gate + Sync>(
    run: &Run<'_, R, G>,
    catalog: &Catalog,
    rows: &[Cells],
) -> Result<FileSet, Fault>
    requires { AreTableColumns catalog.now rows.now }
    ensures answer { IsBuildAnswer catalog.now (rows_in rows.now) result }
    ensures clauses { BuildClauses catalog.now (rows_in rows.now) result }
{
    let _rules = catalog.projection_count();
    assert_cell_bounds(rows);
    let walked = match Table::of_borrowed(run.alloc, rows) {
        Ok(walked) => walked,
        Err(_) => return Err(Fault::Memory),
    };
    if walked.rows() > u32::MAX as usize {
        return Err(Fault::Memory);
    }
    let survivors = match Survivors::new(run.alloc, catalog) {
        Ok(survivors) => survivors,
        Err(_) => return Err(Fault::Memory),
    };
    let orders = match orders_of(run, catalog, &walked) {
        Ok(orders) => orders,
        Err(fault) => return Err(fault),
    };
    let store = store_of(catalog, every_site(catalog), &survivors, walked, orders);
    let sound = SoundStore::of(store);
    write_files(run, &sound)
}
