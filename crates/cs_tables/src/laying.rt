//! Laying out a store anew.
ghost use Rattle.std.specs.Prelude.{length};
ghost use Rattle.cs_store.specs.FileSet.{contents_of};
ghost use Rattle.cs_recovery.specs.Columns.{AreTableColumns};
ghost use Rattle.cs_csv.specs.Faults.{cells_at};
ghost use Rattle.cs_tables.specs.Repeats.{AreDistinctBefore};
ghost use Rattle.cs_tables.specs.Relayout.{IsStoreFaultOf, LaysOut, MakesStore};

use crate::arranging::arrange;
use crate::differences::first_difference;
use crate::relayout_fault::RelayoutFault;
use crate::{LoadFault, build_rows, count_rows, is_safe};
use cs_rebuild::{Fault, FileSet, Gate, Run, table};
use cs_schema::{Catalog, Cells, Loss};
use std::marker::Sync;
use std::thread::Threads;

/// The files of the new store, and the number of rows of its table.
#[derive(Drop)]
pub struct Relaid {
    pub files: FileSet,
    pub rows: usize,
}

/// Why the survivors of a store hold no table.
fn store_fault(fault: Fault) -> RelayoutFault
    ensures { IsStoreFaultOf fault result }
{
    match fault {
        Fault::Memory => RelayoutFault::Memory,
        other => RelayoutFault::Store(other),
    }
}

/// A new store of rows with distinct primary keys.
fn build_store<R: Threads + Sync, G: Gate + Sync>(
    run: &Run<'_, R, G>,
    catalog: &Catalog,
    rows: &[Cells],
) -> Result<Relaid, RelayoutFault>
    requires columns { AreTableColumns catalog.now rows.now }
    requires keys { AreDistinctBefore (cells_at rows.now catalog.now.key) (length (cells_at rows.now catalog.now.key)) }
    ensures { MakesStore catalog.now rows.now result }
{
    let fault = match build_rows(run, catalog, rows) {
        Ok(files) => {
            return Ok(Relaid {
                files,
                rows: count_rows(rows),
            });
        }
        Err(fault) => fault,
    };
    match fault {
        LoadFault::Memory => Err(RelayoutFault::Memory),
        LoadFault::Full(full) => Err(RelayoutFault::Full(full)),
        // keys are distinct, and no text was read
        _ => unreachable!(),
    }
}

/// The files of a new store under another catalog with the same columns, matched by name, in any order. It holds the
/// table that the survivors of a loss of the old store hold.
///
/// The first refusal that applies is answered: `Differs` with the first difference (old columns that the new catalog
/// lacks, then new ones that the old one lacks, then kinds of new columns, then primary keys); `Unsafe`; `Store` with a
/// refusal of `table`; `Full` of the first range with too many rows. `Memory` may take the place of any answer.
pub fn relayout<R: Threads + Sync, G: Gate + Sync>(
    run: &Run<'_, R, G>,
    old: &Catalog,
    files: &FileSet,
    lost: Loss,
    new: &Catalog,
) -> Result<Relaid, RelayoutFault>
    ensures { LaysOut old.now (contents_of files.now) lost new.now result }
{
    let _old_rules = old.projection_count();
    let _new_rules = new.projection_count();
    if let Some(difference) = first_difference(old, new) {
        return Err(RelayoutFault::Differs(difference));
    }
    if !is_safe(new) {
        return Err(RelayoutFault::Unsafe);
    }
    let columns = match table(run, old, files, lost) {
        Ok(columns) => columns,
        Err(fault) => return Err(store_fault(fault)),
    };
    match arrange(run.alloc, old, new, columns) {
        Ok(arranged) => build_store(run, new, arranged.as_slice()),
        Err(_) => Err(RelayoutFault::Memory),
    }
}
