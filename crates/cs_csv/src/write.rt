//! Writing a table's rows as CSV.
ghost use Rattle.std.specs.Prelude.{◌≡◌, ◌<◌, ℕ, [], ◌∷◌, ◌++◌, length, IfOk, IfErr, OnOk};
ghost use Rattle.std.specs.Io.KnownBytes.{Appends};
ghost use Rattle.csv.specs.Records.{fields_of, partial_of};
ghost use Rattle.csv.specs.Writing.{default_writer, row_text, text_written};
ghost use Rattle.cs_schema.specs.Values.{values};
ghost use Rattle.cs_csv.specs.FaultOf.{IsOutside};
ghost use Rattle.cs_csv.specs.Faults.{cells_at};
ghost use Rattle.cs_csv.specs.Writing.{AreEven, IsBetween, row_count, table_text, value_at, value_text};
ghost use Rattle.cs_csv.specs.Writing.{names_record, records_text, row_record, rows_records};

use crate::fault::CsvFault;
use crate::source::fault_of_error;
use cs_schema::{Catalog, Cells, Column};
use csv::{ByteRecord, Writer};
use itoa::Buffer;
use std::alloc::{AllocError, Global};
use std::io::Write;

/// Appends a cell as a field.
fn push_cell(row: &mut ByteRecord, cells: &Cells, n: usize) -> Result<(), AllocError>
    requires there { n < length (values cells.now) }
    requires whole { partial_of row.old ≡ [] }
    ensures fields { OnOk result (fields_of row.new ≡ fields_of row.old ++ value_text (value_at (values cells.now) n) ∷ []) }
    ensures whole { OnOk result (partial_of row.new ≡ []) }
{
    match cells {
        Cells::Ints(ints) => {
            let mut buffer = Buffer::new();
            row.push_field(buffer.format(ints[n]).as_bytes())
        }
        Cells::Texts(texts) => row.push_field(texts.get(n).as_bytes()),
    }
}

/// Row `n` of columns as a record.
fn fill_row(row: &mut ByteRecord, cells: &[Cells], n: usize) -> Result<(), AllocError>
    requires { (c : ℕ) → c < length cells.now → n < length (cells_at cells.now c) }
    ensures { OnOk result (fields_of row.new ≡ row_record cells.now n) }
{
    row.clear();
    for c in 0..cells.len() {
        push_cell(row, &cells[c], n)?;
    }
    Ok(())
}

/// The names of columns as a record.
fn fill_names(row: &mut ByteRecord, columns: &[Column]) -> Result<(), AllocError>
    ensures { OnOk result (fields_of row.new ≡ names_record columns.now) }
{
    row.clear();
    for c in 0..columns.len() {
        let column = &columns[c];
        row.push_field(column.name.as_str().as_bytes())?;
    }
    Ok(())
}

/// Writes a record.
fn write_record<W: Write + Drop>(writer: &mut Writer<W>, row: &ByteRecord) -> Result<(), CsvFault>
    ensures bytes { OnOk result (IsBetween writer.old
        → Appends (text_written W.contents writer.old) (text_written W.contents writer.new) (row_text default_writer (fields_of row.now))) }
    ensures between { OnOk result (IsBetween writer.old → IsBetween writer.new) }
    ensures fails { IfErr result (λ fault. IsOutside fault) }
{
    match writer.write_byte_record(row) {
        Ok(()) => Ok(()),
        Err(error) => Err(fault_of_error(&error)),
    }
}

/// Writes rows of columns.
fn write_body<W: Write + Drop>(
    writer: &mut Writer<W>,
    row: &mut ByteRecord,
    cells: &[Cells],
    rows: usize,
) -> Result<(), CsvFault>
    requires { (c : ℕ) → c < length cells.now → length (cells_at cells.now c) ≡ rows }
    ensures bytes { OnOk result (IsBetween writer.old
        → Appends (text_written W.contents writer.old) (text_written W.contents writer.new) (records_text (rows_records cells.now rows))) }
    ensures between { OnOk result (IsBetween writer.old → IsBetween writer.new) }
    ensures fails { IfErr result (λ fault. IsOutside fault) }
{
    for n in 0..rows {
        if fill_row(row, cells, n).is_err() {
            return Err(CsvFault::Memory);
        }
        match write_record(writer, row) {
            Ok(()) => {}
            Err(fault) => return Err(fault),
        }
    }
    Ok(())
}

/// The number of rows of the columns.
fn count_rows(cells: &[Cells]) -> usize
    ensures { result ≡ row_count cells.now }
{
    match cells.first() {
        Some(first) => first.len(),
        None => 0,
    }
}

/// Writes a header and rows.
fn write_table<W: Write + Drop>(
    alloc: Global,
    columns: &[Column],
    cells: &[Cells],
    writer: &mut Writer<W>,
) -> Result<(), CsvFault>
    requires { AreEven cells.now }
    ensures bytes { OnOk result (IsBetween writer.old
        → Appends (text_written W.contents writer.old) (text_written W.contents writer.new) (table_text columns.now cells.now)) }
    ensures fails { IfErr result (λ fault. IsOutside fault) }
{
    let mut row = ByteRecord::new(alloc);
    if fill_names(&mut row, columns).is_err() {
        return Err(CsvFault::Memory);
    }
    match write_record(writer, &row) {
        Ok(()) => {}
        Err(fault) => return Err(fault),
    }
    write_body(writer, &mut row, cells, count_rows(cells))
}

/// Writes the names of columns as a header, then their rows.
fn write_columns<W: Write + Drop>(
    alloc: Global,
    columns: &[Column],
    cells: &[Cells],
    writer: W,
) -> Result<W, CsvFault>
    requires { AreEven cells.now }
    ensures bytes { IfOk result (λ written. Appends (W.contents writer) (W.contents written) (table_text columns.now cells.now)) }
    ensures fails { IfErr result (λ fault. IsOutside fault) }
{
    let mut records = Writer::from_writer(writer);
    match write_table(alloc, columns, cells, &mut records) {
        Ok(()) => {}
        Err(fault) => return Err(fault),
    }
    match records.into_inner() {
        Ok(written) => Ok(written),
        Err(_) => Err(CsvFault::Device),
    }
}

/// Writes the names of a catalog's columns as a header, then the rows in the given order.
pub fn write_rows<W: Write + Drop>(
    alloc: Global,
    catalog: &Catalog,
    cells: &[Cells],
    writer: W,
) -> Result<W, CsvFault>
    requires { AreEven cells.now }
    ensures bytes { IfOk result (λ written. Appends (W.contents writer) (W.contents written) (table_text catalog.now.columns cells.now)) }
    ensures fails { IfErr result (λ fault. IsOutside fault) }
{
    write_columns(alloc, catalog.columns.as_slice(), cells, writer)
}
