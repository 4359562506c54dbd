//! The files of a new store from rows, or which rows prevent it.
ghost use Rattle.std.specs.Prelude.{◌≡◌, [], true, false, Some};
ghost use Rattle.cs_safety.specs.Safety.{IsSafe};
ghost use Rattle.cs_store.specs.Fault.{MemoryOr};
ghost use Rattle.cs_recovery.specs.BuildAnswers.{build_fault};
ghost use Rattle.cs_recovery.specs.Columns.{AreTableColumns, rows_in};
ghost use Rattle.cs_tables.specs.Loading.{BuildsTable, IsBuildRefusal, IsTwiceFault};

use crate::cutting::full_range;
use crate::load_fault::LoadFault;
use crate::repeats::first_repeat;
use cs_rebuild::{Fault, FileSet, Gate, Run, build};
use cs_safety::safe;
use cs_schema::{Catalog, Cells, Loss};
use std::alloc::Global;
use std::marker::Sync;
use std::thread::Threads;

/// Whether a catalog is safe if no site is lost, as that of a new store must be.
pub fn is_safe(catalog: &Catalog) -> bool
    ensures yes { result ≡ true → IsSafe catalog.now [] }
    ensures no { result ≡ false → ¬ IsSafe catalog.now [] }
{
    safe(catalog, Loss::none())
}

/// The rows with a repeated primary key.
fn twice(alloc: Global, catalog: &Catalog, rows: &[Cells]) -> LoadFault
    requires { AreTableColumns catalog.now rows.now }
    ensures { IsTwiceFault catalog.now rows.now result }
{
    let _rules = catalog.projection_count();
    match first_repeat(alloc, &rows[catalog.key as usize]) {
        Ok(Some(repeat)) => LoadFault::Twice(repeat),
        // a repeated key has a first repeat
        Ok(None) | Err(_) => LoadFault::Memory,
    }
}

/// Why rows are refused, given the fault that `build` answered.
fn refusal(alloc: Global, catalog: &Catalog, rows: &[Cells], fault: Fault) -> LoadFault
    requires columns { AreTableColumns catalog.now rows.now }
    requires refused { MemoryOr fault (build_fault catalog.now (rows_in rows.now) ≡ Some fault) }
    ensures { IsBuildRefusal catalog.now rows.now result }
{
    match fault {
        Fault::Twice => twice(alloc, catalog, rows),
        Fault::Full { p, s } => match full_range(alloc, catalog, rows, p, s) {
            Ok(full) => LoadFault::Full(full),
            Err(_) => LoadFault::Memory,
        },
        // `build` has no other fault about rows
        _ => LoadFault::Memory,
    }
}

/// The files of a new store with the table of these rows. Unlike `build`, a refusal names the rows.
pub fn build_rows<R: Threads + Sync, G: Gate + Sync>(
    run: &Run<'_, R, G>,
    catalog: &Catalog,
    rows: &[Cells],
) -> Result<FileSet, LoadFault>
    requires columns { AreTableColumns catalog.now rows.now }
    ensures { BuildsTable catalog.now rows.now result }
{
    match build(run, catalog, rows) {
        Ok(files) => Ok(files),
        Err(fault) => Err(refusal(run.alloc, catalog, rows, fault)),
    }
}
