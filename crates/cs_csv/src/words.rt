//! Descriptions of faults of a CSV text.

use crate::fault::CsvFault;
use cs_schema::Catalog;
use std::fmt;

/// Displays a fault as one line without its end: the record, the column, and what is wrong. The header is record 0.
#[derive(Clone, Copy)]
pub struct CsvWords<'a> {
    pub catalog: &'a Catalog,
    pub fault: &'a CsvFault,
}

impl CsvWords<'_> {
    /// The name of a column.
    fn name(&self, column: usize) -> &str {
        let catalog = self.catalog;
        match catalog.columns.get(column) {
            Some(column) => column.name.as_str(),
            None => "no column",
        }
    }

    /// What is wrong with the header.
    fn write_header<W: fmt::Write>(&self, f: &mut fmt::Formatter<W>) -> fmt::Result {
        match self.fault {
            CsvFault::Missing { column } => write!(f, "{} is missing", self.name(*column)),
            CsvFault::Unknown { name } => write!(f, "{name} is not a column"),
            CsvFault::Twice { column } => write!(
                f,
                "{} specified more than once",
                self.name(*column)
            ),
            _ => Ok(()),
        }
    }

    /// What is wrong with a cell of a column.
    fn write_cell<W: fmt::Write>(&self, f: &mut fmt::Formatter<W>) -> fmt::Result {
        match self.fault {
            CsvFault::NotInt { cell, .. } => write!(f, " is not an integer: \"{cell}\""),
            CsvFault::NotText { .. } => f.write_str(" is not valid UTF-8"),
            CsvFault::TooLong { bytes, .. } => write!(f, " is too long: {bytes} bytes"),
            _ => Ok(()),
        }
    }

    /// What is wrong with record number `n`.
    fn write_record<W: fmt::Write>(
        &self,
        f: &mut fmt::Formatter<W>,
        record: u64,
        column: usize,
    ) -> fmt::Result {
        let name = self.name(column);
        write!(f, "record {}: {name}", record.saturating_add(1))?;
        self.write_cell(f)
    }

    /// A record whose width is not the table's.
    fn write_width<W: fmt::Write>(
        &self,
        f: &mut fmt::Formatter<W>,
        record: u64,
        cells: usize,
    ) -> fmt::Result {
        let record = record.saturating_add(1);
        let catalog = self.catalog;
        let wanted = catalog.columns.len();
        write!(
            f,
            "record {record}: {cells} cells, but the catalog has {wanted} columns"
        )
    }
}

impl fmt::Display for CsvWords<'_> {
    fn fmt<W: fmt::Write>(&self, f: &mut fmt::Formatter<W>) -> fmt::Result {
        match self.fault {
            CsvFault::Memory => f.write_str("want of memory"),
            CsvFault::Device => f.write_str("could not read the text"),
            CsvFault::TooMany => f.write_str(
                "record 16777217: more rows than any catalog has room for",
            ),
            CsvFault::Unclosed { before } => write!(
                f,
                "record {before}: a quoted cell is not closed: close it, or get the rest of the text"
            ),
            CsvFault::Width { record, cells } => self.write_width(f, *record, *cells),
            CsvFault::NotInt { record, column, .. }
            | CsvFault::NotText { record, column }
            | CsvFault::TooLong { record, column, .. } => self.write_record(f, *record, *column),
            _ => {
                f.write_str("record 0: ")?;
                self.write_header(f)
            }
        }
    }
}
