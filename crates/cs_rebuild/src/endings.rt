//! The answers of `rebuild`, `check` and `table` about what survives a safe loss.
ghost use Rattle.std.specs.Prelude.{◌≡◌};
ghost use Rattle.cs_schema.specs.FileNames.{FileContents};
ghost use Rattle.cs_safety.specs.Safety.{IsSafe};
ghost use Rattle.cs_rebuild.specs.Answers.{IsAnswer};
ghost use Rattle.cs_rebuild.specs.Steps.{AreRead};

use crate::ordered_store::OrderedStore;
use crate::run::Run;
use crate::surviving_table::rows_by_key;
use crate::verifying::verify;
use crate::wanted::{Answer, Wanted};
use crate::writing::write_files;
use cs_board::Gate;
use cs_rows::Survivors;
use cs_schema::{Catalog, Loss};
use cs_store::Fault;
use std::marker::Sync;
use std::thread::Threads;

/// The files that recover the table.
fn recovered_files<R: Threads + Sync, G: Gate + Sync>(
    run: &Run<'_, R, G>,
    catalog: &Catalog,
    loss: Loss,
    survivors: &Survivors<'_>,
) -> Result<Answer, Fault>
    requires safe { IsSafe catalog.now loss }
    requires read { (F : FileContents) × AreRead catalog.now F loss survivors.now }
    ensures { (F : FileContents) → AreRead catalog.now F loss survivors.now → IsAnswer Wanted.Files catalog.now F loss result }
{
    let store = match verify(run, catalog, loss, survivors) {
        Ok(store) => store,
        Err(fault) => return Err(fault),
    };
    match write_files(run, &store) {
        Ok(files) => Ok(Answer::Files(files)),
        Err(fault) => Err(fault),
    }
}

/// The number of rows of the table.
fn row_count<R: Threads + Sync, G: Gate + Sync>(
    run: &Run<'_, R, G>,
    catalog: &Catalog,
    loss: Loss,
    survivors: &Survivors<'_>,
) -> Result<Answer, Fault>
    requires safe { IsSafe catalog.now loss }
    requires read { (F : FileContents) × AreRead catalog.now F loss survivors.now }
    ensures { (F : FileContents) → AreRead catalog.now F loss survivors.now → IsAnswer Wanted.Count catalog.now F loss result }
{
    match verify(run, catalog, loss, survivors) {
        Ok(store) => Ok(Answer::Count(store.ordered().walked.rows() as u64)),
        Err(fault) => Err(fault),
    }
}

/// The rows of the table by primary key, as columns.
fn table_columns<R: Threads + Sync, G: Gate + Sync>(
    run: &Run<'_, R, G>,
    catalog: &Catalog,
    loss: Loss,
    survivors: &Survivors<'_>,
) -> Result<Answer, Fault>
    requires safe { IsSafe catalog.now loss }
    requires read { (F : FileContents) × AreRead catalog.now F loss survivors.now }
    ensures { (F : FileContents) → AreRead catalog.now F loss survivors.now → IsAnswer Wanted.Columns catalog.now F loss result }
{
    let store = match verify(run, catalog, loss, survivors) {
        Ok(store) => store,
        Err(fault) => return Err(fault),
    };
    // the orders are freed before the rows are copied
    let OrderedStore { walked, .. } = store.into_ordered();
    match rows_by_key(run, catalog, walked) {
        Ok(columns) => Ok(Answer::Columns(columns)),
        Err(_) => Err(Fault::Memory),
    }
}

/// What is wanted of the table that survives a safe loss, or the first fault of the survivors.
pub fn answer_survivors<R: Threads + Sync, G: Gate + Sync>(
    run: &Run<'_, R, G>,
    catalog: &Catalog,
    loss: Loss,
    survivors: &Survivors<'_>,
    wanted: Wanted,
) -> Result<Answer, Fault>
    requires safe { IsSafe catalog.now loss }
    requires read { (F : FileContents) × AreRead catalog.now F loss survivors.now }
    ensures { (F : FileContents) → AreRead catalog.now F loss survivors.now → IsAnswer wanted catalog.now F loss result }
{
    match wanted {
        Wanted::Files => recovered_files(run, catalog, loss, survivors),
        Wanted::Count => row_count(run, catalog, loss, survivors),
        Wanted::Columns => table_columns(run, catalog, loss, survivors),
    }
}
