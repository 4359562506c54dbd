//! Laws of the crate.
ghost use Rattle.std.specs.Prelude.{◌≡◌, map, IfOk, IfErr};
ghost use Rattle.cs_schema.specs.Values.{values};
ghost use Rattle.cs_csv.specs.Writing.{AreEven, row_count};
ghost use Rattle.cs_csv.specs.RoundTrip.{CellsFit, IsTripFault};

use crate::fault::CsvFault;
use crate::read::read_rows;
use crate::write::write_rows;
use cs_schema::{Catalog, Cells};
use std::alloc::Global;

/// `read_rows` reads what `write_rows` wrote as the same rows, unless there are more than a table can have.
pub fn write_and_read(
    alloc: Global,
    catalog: &Catalog,
    cells: &[Cells],
) -> Result<Vec<Cells>, CsvFault>
    requires even { AreEven cells.now }
    requires fit { CellsFit catalog.now.columns cells.now }
    ensures same { IfOk result (λ read. map values read.items ≡ map values cells.now) }
    ensures no_fault { IfErr result (λ fault. IsTripFault (row_count cells.now) fault) }
{
    let _columns = &catalog.columns;
    let text = match write_rows(alloc, catalog, cells, Vec::new(alloc)) {
        Ok(text) => text,
        Err(fault) => return Err(fault),
    };
    read_rows(alloc, catalog, text.as_slice())
}
