//! The table of a store as CSV.
ghost use Rattle.std.specs.Prelude.{◌≡◌};
ghost use Rattle.cs_store.specs.FileSet.{contents_of};
ghost use Rattle.cs_tables.specs.Dumping.{DumpsTable};

use cs_csv::{CsvFault, write_rows};
use cs_rebuild::{Fault, FileSet, Gate, Run, table};
use cs_schema::{Catalog, Loss};
use std::io::Write;
use std::marker::Sync;
use std::thread::Threads;

/// Why a store's table was not written.
#[derive(Debug, Drop)]
pub enum DumpFault {
    /// Why the surviving files hold no table.
    Store(Fault),
    /// The text could not be written.
    Text(CsvFault),
}

/// Writes the table that the survivors of a loss hold as CSV: a header with the names of the columns, then the rows by
/// primary key. Nothing is written before the whole table is known.
///
/// Fails on a store as `table` does. After a fault of the text, part of it may have been written.
pub fn dump<R: Threads + Sync, G: Gate + Sync, W: Write + Drop>(
    run: &Run<'_, R, G>,
    catalog: &Catalog,
    files: &FileSet,
    loss: Loss,
    output: W,
) -> Result<W, DumpFault>
    ensures { DumpsTable W.contents catalog.now (contents_of files.now) loss output result }
{
    let columns = match table(run, catalog, files, loss) {
        Ok(columns) => columns,
        Err(fault) => return Err(DumpFault::Store(fault)),
    };
    match write_rows(run.alloc, catalog, columns.as_slice(), output) {
        Ok(written) => Ok(written),
        Err(fault) => Err(DumpFault::Text(fault)),
    }
}
