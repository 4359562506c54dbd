//! A new store from a CSV.
ghost use Rattle.cs_tables.specs.Loading.{IsTextFaultOf, LoadsTable};

use crate::building::{build_rows, is_safe};
use crate::counting::count_rows;
use crate::load_fault::LoadFault;
use cs_csv::{CsvFault, read_rows};
use cs_rebuild::{FileSet, Gate, Run};
use cs_schema::Catalog;
use std::io::Read;
use std::marker::Sync;
use std::thread::Threads;

/// The files of a new store, and the number of rows of its table.
#[derive(Drop)]
pub struct Loaded {
    pub files: FileSet,
    pub rows: usize,
}

/// Why a text has no rows.
fn text_fault(fault: CsvFault) -> LoadFault
    ensures { IsTextFaultOf fault result }
{
    match fault {
        CsvFault::Memory => LoadFault::Memory,
        other => LoadFault::Text(other),
    }
}

/// The files of a new store under a catalog, with the table of a CSV's rows.
///
/// The first refusal that applies is answered: `Unsafe`; the first fault of the text; `Twice` of the first row with the
/// primary key of an earlier one; `Full` of the first range with too many rows. `Memory` may take the place of any
/// answer.
pub fn load<R: Threads + Sync, G: Gate + Sync, I: Read + Drop>(
    run: &Run<'_, R, G>,
    catalog: &Catalog,
    input: I,
) -> Result<Loaded, LoadFault>
    ensures { LoadsTable catalog.now (I.remaining input) result }
{
    if !is_safe(catalog) {
        return Err(LoadFault::Unsafe);
    }
    let cells = match read_rows(run.alloc, catalog, input) {
        Ok(cells) => cells,
        Err(fault) => return Err(text_fault(fault)),
    };
    match build_rows(run, catalog, cells.as_slice()) {
        Ok(files) => Ok(Loaded {
            files,
            rows: count_rows(cells.as_slice()),
        }),
        Err(fault) => Err(fault),
    }
}
