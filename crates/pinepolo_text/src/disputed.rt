//! Where the tables of an ambiguous store differ, in lines.
use crate::CellWords;
use crate::explained::number_of;
use cs_diagnosis::{Diagnosis, Dispute, FoundTable, TableDisputes};
use cs_schema::{Catalog, Cells};
use std::fmt;

/// The rows in which two tables differ: how many they are, and those that were kept.
#[derive(Clone, Copy)]
pub struct DisputeLines<'a> {
    pub catalog: &'a Catalog,
    pub diagnosis: &'a Diagnosis,
    pub of: &'a TableDisputes,
}

/// The row of a dispute that one table has, or both.
#[derive(Clone, Copy)]
struct DisputeLine<'a> {
    lines: DisputeLines<'a>,
    dispute: Dispute,
}

/// A column in which two rows differ, each with the number of its table.
#[derive(Clone, Copy)]
struct CellPair<'a> {
    name: &'a str,
    first: CellWords<'a>,
    second: CellWords<'a>,
}

/// A table of a diagnosis by its place.
pub fn table_at(diagnosis: &Diagnosis, place: usize) -> &[Cells] {
    let found: Option<&FoundTable> = diagnosis.tables.get(place);
    match found {
        Some(table) => table.columns.as_slice(),
        None => &[],
    }
}

/// Whether two columns have different cells at these rows.
pub fn is_disputed(first: &Cells, row: usize, second: &Cells, other: usize) -> bool {
    row < first.len() && other < second.len() && !first.same(row, second, other)
}

impl<'a> DisputeLines<'a> {
    /// The primary key of a row of a table.
    fn write_key<W: fmt::Write>(
        &self,
        f: &mut fmt::Formatter<W>,
        table: &[Cells],
        row: usize,
    ) -> fmt::Result {
        let catalog = self.catalog;
        let key = usize::from(catalog.key);
        let (Some(column), Some(cells)) = (catalog.columns.get(key), table.get(key)) else {
            return Ok(());
        };
        let name = column.name.as_str();
        let cell = CellWords { cells, row };
        write!(f, "  {name} {cell}: ")
    }
}

impl fmt::Display for CellPair<'_> {
    fn fmt<W: fmt::Write>(&self, f: &mut fmt::Formatter<W>) -> fmt::Result {
        let CellPair {
            name,
            first,
            second,
        } = *self;
        write!(f, "{name} {first} or {second}")
    }
}

impl DisputeLine<'_> {
    /// A row that one table alone has.
    fn write_alone<W: fmt::Write>(
        &self,
        f: &mut fmt::Formatter<W>,
        place: usize,
        row: usize,
    ) -> fmt::Result {
        let table = table_at(self.lines.diagnosis, place);
        self.lines.write_key(f, table, row)?;
        let number = number_of(place);
        writeln!(f, "in table {number} alone")
    }

    /// The cells in which the rows of both tables differ.
    fn write_cells<W: fmt::Write>(
        &self,
        f: &mut fmt::Formatter<W>,
        row: usize,
        other: usize,
    ) -> fmt::Result {
        let lines = self.lines;
        let catalog = lines.catalog;
        let table = table_at(lines.diagnosis, lines.of.first);
        let others = table_at(lines.diagnosis, lines.of.second);
        lines.write_key(f, table, row)?;
        let mut separator = "";
        for (c, column) in catalog.columns.iter().enumerate() {
            let (Some(cells), Some(their)) = (table.get(c), others.get(c)) else {
                continue;
            };
            if is_disputed(cells, row, their, other) {
                let pair = CellPair {
                    name: column.name.as_str(),
                    first: CellWords { cells, row },
                    second: CellWords {
                        cells: their,
                        row: other,
                    },
                };
                write!(f, "{separator}{pair}")?;
                separator = ", ";
            }
        }
        writeln!(f)
    }
}

impl fmt::Display for DisputeLine<'_> {
    fn fmt<W: fmt::Write>(&self, f: &mut fmt::Formatter<W>) -> fmt::Result {
        match (self.dispute.first, self.dispute.second) {
            (Some(row), Some(other)) => self.write_cells(f, row, other),
            (Some(row), None) => self.write_alone(f, self.lines.of.first, row),
            (None, Some(other)) => self.write_alone(f, self.lines.of.second, other),
            (None, None) => Ok(()),
        }
    }
}

/// What so many rows are called.
fn row_word(count: u64) -> &'static str {
    if count == 1 { "row" } else { "rows" }
}

impl fmt::Display for DisputeLines<'_> {
    fn fmt<W: fmt::Write>(&self, f: &mut fmt::Formatter<W>) -> fmt::Result {
        let first = number_of(self.of.first);
        let second = number_of(self.of.second);
        let count = self.of.disputes.count;
        let rows = row_word(count);
        writeln!(f, "tables {first} and {second} differ in {count} {rows}")?;
        for dispute in &self.of.disputes.rows {
            let line = DisputeLine {
                lines: *self,
                dispute: *dispute,
            };
            write!(f, "{line}")?;
        }
        let kept = self.of.disputes.rows.len() as u64;
        if kept < count {
            let more = count - kept;
            writeln!(f, "  and {more} more: --disputes N prints N of them")?;
        }
        Ok(())
    }
}
