//! Describes why rows make no store.

use crate::load_fault::{FullRange, LoadFault, Repeat};
use cs_csv::{CsvWords, Excerpt};
use cs_schema::limits::SEGMENT_ROWS;
use cs_schema::{Catalog, Value};
use std::fmt;

/// Displays why a text makes no store of this catalog, as one line without its end. The header is record 0.
#[derive(Clone, Copy)]
pub struct LoadWords<'a> {
    pub catalog: &'a Catalog,
    pub fault: &'a LoadFault,
}

/// A cell.
#[derive(Clone, Copy)]
struct CellWords<'a> {
    cell: &'a Value,
}

impl fmt::Display for CellWords<'_> {
    fn fmt<W: fmt::Write>(&self, f: &mut fmt::Formatter<W>) -> fmt::Result {
        match self.cell {
            Value::Int(int) => write!(f, "{int}"),
            Value::Text(text) => {
                let text = Excerpt::new(text.as_str().as_bytes());
                write!(f, "\"{text}\"")
            }
        }
    }
}

/// The range of a segment that has too many rows, and where to cut it.
#[derive(Clone, Copy)]
pub(crate) struct FullWords<'a> {
    pub(crate) catalog: &'a Catalog,
    pub(crate) full: &'a FullRange,
}

impl fmt::Display for FullWords<'_> {
    fn fmt<W: fmt::Write>(&self, f: &mut fmt::Formatter<W>) -> fmt::Result {
        let (catalog, full) = (self.catalog, self.full);
        let (p, s, rows) = (full.p, full.s, full.rows);
        let name = match catalog.projections.get(p as usize) {
            Some(projection) => projection.name.as_str(),
            None => "no projection",
        };
        write!(
            f,
            "p{p}.s{s} is full: {rows} rows of {name}, and {SEGMENT_ROWS} fit: "
        )?;
        match &full.cut {
            Some(cell) => {
                let cut = CellWords { cell };
                write!(f, "cut {name} at {cut}")
            }
            None => write!(f, "too many have one value: sort {name} by another column"),
        }
    }
}

impl LoadWords<'_> {
    /// The name of the primary key's column.
    fn key_name(&self) -> &str {
        let catalog = self.catalog;
        match catalog.columns.get(catalog.key as usize) {
            Some(column) => column.name.as_str(),
            None => "key",
        }
    }

    /// Two records with the same primary key.
    fn write_repeat<W: fmt::Write>(
        &self,
        f: &mut fmt::Formatter<W>,
        repeat: &Repeat,
    ) -> fmt::Result {
        let key = CellWords { cell: &repeat.key };
        let first = repeat.first.saturating_add(1);
        let again = repeat.again.saturating_add(1);
        let name = self.key_name();
        write!(
            f,
            "record {again}: {name} {key} already exists (record {first})"
        )
    }
}

impl fmt::Display for LoadWords<'_> {
    fn fmt<W: fmt::Write>(&self, f: &mut fmt::Formatter<W>) -> fmt::Result {
        match self.fault {
            LoadFault::Memory => f.write_str("want of memory"),
            LoadFault::Unsafe => f.write_str("unsafe: no projection reaches every column by joins"),
            LoadFault::Text(fault) => {
                let catalog = self.catalog;
                let words = CsvWords { catalog, fault };
                write!(f, "{words}")
            }
            LoadFault::Twice(repeat) => self.write_repeat(f, repeat),
            LoadFault::Full(full) => {
                let catalog = self.catalog;
                let words = FullWords { catalog, full };
                write!(f, "{words}")
            }
        }
    }
}
