//! Reading a table's rows from CSV.
ghost use Rattle.std.specs.Prelude.{◌≡◌, ◌<◌, ◌≤◌, ◌+◌, ℕ, List, Option, [], ◌∷◌, ◌++◌, length, slice_index, IfOk, IfErr, OnOk, Ok, true, false};
ghost use Rattle.csv.specs.Records.{fields_of};
ghost use Rattle.cs_schema.specs.CatalogData.{ColumnData};
ghost use Rattle.cs_csv.specs.Columns.{NamesDiffer};
ghost use Rattle.cs_csv.specs.Fields.{Record};
ghost use Rattle.cs_csv.specs.Faults.{HoldsRows, IsFirstFault, most_rows};
ghost use Rattle.cs_csv.specs.Headers.{IsHeader};
ghost use Rattle.cs_csv.specs.Places.{ArePlaces};
ghost use Rattle.cs_csv.specs.Reading.{HasRead, IfKnown};
ghost use Rattle.cs_csv.specs.Writing.{AreEven};
ghost use Rattle.cs_csv.specs.Rows.{HoldsSoFar, RowsRead};

use crate::columns::new_cells;
use crate::fault::CsvFault;
use crate::header::read_header;
use crate::record::push_record;
use crate::source::{MARK, marked, next_record, read_ahead};
use cs_schema::limits::TABLE_ROWS;
use cs_schema::{Catalog, Cells, Column};
use csv::{ByteRecord, Reader};
use std::alloc::Global;
use std::io::Read;

/// Appends record `n` after the header to the columns, given the index of each column's field, and says whether there
/// was one.
fn read_row<R: Read>(
    records: &mut Reader<R>,
    ahead: &mut ByteRecord,
    row: &mut ByteRecord,
    n: u64,
    places: &[usize],
    cells: &mut Vec<Cells>,
) -> Result<bool, CsvFault>
    requires count { n ≤ most_rows }
    requires cells { length cells.old.items ≡ length places.now }
    requires within { (c : ℕ) → c < length places.now → slice_index places.now c < length places.now }
    ensures count { length cells.new.items ≡ length cells.old.items }
    ensures few { result ≡ Ok true → n < most_rows }
    ensures more { result ≡ Ok true
        → (known : Option (List ℕ)) (columns : List ColumnData) (head : Record) (rows : List Record)
        → RowsRead R.remaining known records.old (fields_of ahead.old) columns places.now cells.old.items n head rows
        → RowsRead R.remaining known records.new (fields_of ahead.new) columns places.now cells.new.items (n + 1) head (rows ++ fields_of row.new ∷ []) }
    ensures end { result ≡ Ok false
        → (known : Option (List ℕ)) (columns : List ColumnData) (head : Record) (rows : List Record)
        → RowsRead R.remaining known records.old (fields_of ahead.old) columns places.now cells.old.items n head rows
        → IfKnown known (λ all unclosed. (all ≡ head ∷ rows) × (unclosed ≡ false)) }
    ensures same { result ≡ Ok false → cells.new.items ≡ cells.old.items }
    ensures err { IfErr result (λ fault. (known : Option (List ℕ)) (columns : List ColumnData) (head : Record) (rows : List Record)
        → RowsRead R.remaining known records.old (fields_of ahead.old) columns places.now cells.old.items n head rows
        → IfKnown known (λ all unclosed. IsFirstFault columns all unclosed fault)) }
{
    match next_record(records, ahead, row, n + 1) {
        Ok(true) => {}
        Ok(false) => return Ok(false),
        Err(fault) => return Err(fault),
    }
    if n >= TABLE_ROWS {
        return Err(CsvFault::TooMany);
    }
    if row.len() != places.len() {
        return Err(CsvFault::Width {
            record: n,
            cells: row.len(),
        });
    }
    match push_record(row, places, cells) {
        Ok(()) => Ok(true),
        Err(fault) => Err(CsvFault::of_field(n, fault)),
    }
}

/// Appends the records after the header to the columns.
fn read_body<R: Read>(
    records: &mut Reader<R>,
    ahead: &mut ByteRecord,
    row: &mut ByteRecord,
    places: &[usize],
    cells: &mut Vec<Cells>,
) -> Result<(), CsvFault>
    requires cells { length cells.old.items ≡ length places.now }
    requires within { (c : ℕ) → c < length places.now → slice_index places.now c < length places.now }
    ensures ok { OnOk result ((known : Option (List ℕ)) (columns : List ColumnData) (head : Record)
        → RowsRead R.remaining known records.old (fields_of ahead.old) columns places.now cells.old.items 0 head []
        → (rows : List Record) × (length rows ≤ most_rows) × HoldsSoFar columns head rows places.now cells.new.items
        × IfKnown known (λ all unclosed. (all ≡ head ∷ rows) × (unclosed ≡ false))) }
    ensures err { IfErr result (λ fault. (known : Option (List ℕ)) (columns : List ColumnData) (head : Record)
        → RowsRead R.remaining known records.old (fields_of ahead.old) columns places.now cells.old.items 0 head []
        → IfKnown known (λ all unclosed. IsFirstFault columns all unclosed fault)) }
{
    for n in 0..=TABLE_ROWS {
        match read_row(records, ahead, row, n, places, cells) {
            Ok(true) => {}
            Ok(false) => return Ok(()),
            Err(fault) => return Err(fault),
        }
    }
    unreachable!()
}

/// Reads the header: for each column the index of its field.
fn read_places<R: Read>(
    alloc: Global,
    columns: &[Column],
    records: &mut Reader<R>,
    ahead: &mut ByteRecord,
    row: &mut ByteRecord,
) -> Result<Vec<usize>, CsvFault>
    requires some { 0 < length columns.now }
    requires differ { NamesDiffer columns.now }
    ensures ok { IfOk result (λ places. (head : Record) × IsHeader columns.now head × ArePlaces columns.now head places.items
        × ((known : Option (List ℕ)) → HasRead R.remaining known records.old (fields_of ahead.old) [] → HasRead R.remaining known records.new (fields_of ahead.new) (head ∷ []))) }
    ensures err { IfErr result (λ fault. (known : Option (List ℕ)) → HasRead R.remaining known records.old (fields_of ahead.old) []
        → IfKnown known (λ all unclosed. IsFirstFault columns.now all unclosed fault)) }
{
    match next_record(records, ahead, row, 0) {
        Ok(true) => {}
        Ok(false) => return Err(CsvFault::Missing { column: 0 }),
        Err(fault) => return Err(fault),
    }
    read_header(alloc, columns, row)
}

/// Reads a table's rows from a reader at its start.
fn read_table<R: Read>(
    alloc: Global,
    columns: &[Column],
    records: &mut Reader<R>,
    ahead: &mut ByteRecord,
    row: &mut ByteRecord,
) -> Result<Vec<Cells>, CsvFault>
    requires some { 0 < length columns.now }
    requires differ { NamesDiffer columns.now }
    ensures ok { IfOk result (λ cells. (known : Option (List ℕ)) → HasRead R.remaining known records.old (fields_of ahead.old) []
        → (head : Record) × (rows : List Record) × HoldsRows columns.now head rows cells.items
        × IfKnown known (λ all unclosed. (all ≡ head ∷ rows) × (unclosed ≡ false))) }
    ensures err { IfErr result (λ fault. (known : Option (List ℕ)) → HasRead R.remaining known records.old (fields_of ahead.old) []
        → IfKnown known (λ all unclosed. IsFirstFault columns.now all unclosed fault)) }
{
    let places = match read_places(alloc, columns, records, ahead, row) {
        Ok(places) => places,
        Err(fault) => return Err(fault),
    };
    let Ok(cells) = new_cells(alloc, columns) else {
        return Err(CsvFault::Memory);
    };
    let mut cells = cells;
    match read_body(records, ahead, row, places.as_slice(), &mut cells) {
        Ok(()) => Ok(cells),
        Err(fault) => Err(fault),
    }
}

/// The columns of a table, from a text whose header names each column once.
fn read_columns<R: Read + Drop>(
    alloc: Global,
    columns: &[Column],
    reader: R,
) -> Result<Vec<Cells>, CsvFault>
    requires some { 0 < length columns.now }
    requires differ { NamesDiffer columns.now }
    ensures ok { IfOk result (λ cells. (header : Record) × (rows : List Record)
        × HoldsRows columns.now header rows cells.items
        × IfKnown (R.remaining reader) (λ records unclosed. (records ≡ header ∷ rows) × (unclosed ≡ false))) }
    ensures err { IfErr result (λ fault. IfKnown (R.remaining reader) (λ records unclosed. IsFirstFault columns.now records unclosed fault)) }
{
    let mut ahead = ByteRecord::new(alloc);
    let mut records = match read_ahead(alloc, marked(reader, MARK), &mut ahead) {
        Ok(records) => records,
        Err(fault) => return Err(fault),
    };
    let mut row = ByteRecord::new(alloc);
    read_table(alloc, columns, &mut records, &mut ahead, &mut row)
}

/// The rows of a catalog's table, column by column, from a text whose header names each column once, in any order.
///
/// A byte order mark and empty lines are skipped. Each record after the header has a cell for each column: an int as
/// `i64`'s `FromStr` accepts it, or UTF-8 of at most 255 bytes. There are at most 16,777,216 records.
///
/// Of several faults, that of the first record is answered. In the header: the first field that is not the name of a
/// column or repeats one, otherwise the first column without a field. In a later record: its number of fields,
/// otherwise the first column whose field is not a cell. If the text ends within a quoted cell, nothing else is wrong
/// with its last record. `Memory` and `Device` may take the place of any answer.
pub fn read_rows<R: Read + Drop>(
    alloc: Global,
    catalog: &Catalog,
    reader: R,
) -> Result<Vec<Cells>, CsvFault>
    ensures ok { IfOk result (λ cells. (header : Record) × (rows : List Record)
        × HoldsRows catalog.now.columns header rows cells.items
        × IfKnown (R.remaining reader) (λ records unclosed. (records ≡ header ∷ rows) × (unclosed ≡ false))) }
    ensures even { IfOk result (λ cells. AreEven cells.items) }
    ensures err { IfErr result (λ fault. IfKnown (R.remaining reader) (λ records unclosed. IsFirstFault catalog.now.columns records unclosed fault)) }
{
    let _rules = catalog.projection_count();
    read_columns(alloc, catalog.columns.as_slice(), reader)
}
