//! A catalog in words.
use crate::cell_words::CellWords;
use crate::counted::Counted;
use cs_reports::ColumnNames;
use cs_schema::{Catalog, Cells, Code, Kind, Projection, Safety};
use std::fmt;

/// What a catalog says, in lines.
#[derive(Clone, Copy)]
pub struct CatalogWords<'a>(pub &'a Catalog);

/// What a code is called.
fn code_word(code: Code) -> &'static str {
    match code {
        Code::Runs => "runs",
        Code::Bitmaps => "bitmaps",
        Code::Differences => "differences",
        Code::Plain => "plain",
    }
}

/// What the code of a projection's column is called, by the column's number there.
pub fn code_at(projection: &Projection, at: usize) -> &'static str {
    match projection.codes.get(at) {
        Some(code) => code_word(*code),
        None => "",
    }
}

/// What a kind is called.
pub fn kind_word(kind: Kind) -> &'static str {
    match kind {
        Kind::Int => "int",
        Kind::Text => "text",
    }
}

/// The columns of a projection, each with its code.
#[derive(Clone, Copy)]
struct CodedColumns<'a> {
    catalog: &'a Catalog,
    projection: &'a Projection,
}

impl fmt::Display for CodedColumns<'_> {
    fn fmt<W: fmt::Write>(&self, f: &mut fmt::Formatter<W>) -> fmt::Result {
        let CodedColumns {
            catalog,
            projection,
        } = *self;
        for (at, column) in projection.columns.iter().enumerate() {
            let separator = if at == 0 { "" } else { ", " };
            let columns = &[*column];
            let name = ColumnNames { catalog, columns };
            let code = code_at(projection, at);
            write!(f, "{separator}{name} {code}")?;
        }
        Ok(())
    }
}

/// The cuts of a projection.
#[derive(Clone, Copy)]
struct CutWords<'a>(&'a Cells);

impl fmt::Display for CutWords<'_> {
    fn fmt<W: fmt::Write>(&self, f: &mut fmt::Formatter<W>) -> fmt::Result {
        let cells = self.0;
        if cells.is_empty() {
            return f.write_str("no cuts");
        }
        let mut separator = "cut at ";
        for row in 0..cells.len() {
            let cell = CellWords { cells, row };
            write!(f, "{separator}{cell}")?;
            separator = ", ";
        }
        Ok(())
    }
}

/// The names of the projections that join indexes lead to.
#[derive(Clone, Copy)]
struct JoinWords<'a> {
    catalog: &'a Catalog,
    projection: &'a Projection,
}

impl fmt::Display for JoinWords<'_> {
    fn fmt<W: fmt::Write>(&self, f: &mut fmt::Formatter<W>) -> fmt::Result {
        let JoinWords {
            catalog,
            projection,
        } = *self;
        let mut separator = "; joins to ";
        for join in &projection.joins {
            if let Some(target) = catalog.projections.get(usize::from(*join)) {
                let name = target.name.as_str();
                write!(f, "{separator}{name}")?;
                separator = ", ";
            }
        }
        Ok(())
    }
}

impl CatalogWords<'_> {
    /// The table's name, its key, and how losses are judged.
    fn write_table<W: fmt::Write>(&self, f: &mut fmt::Formatter<W>) -> fmt::Result {
        let catalog = self.0;
        let table = catalog.table.as_str();
        let columns = &[catalog.key];
        let key = ColumnNames { catalog, columns };
        let sites = Counted {
            count: u64::from(catalog.sites),
            one: "site",
            several: "sites",
        };
        let judged = match catalog.safety {
            Safety::Whole => "whole projections",
            Safety::Rows => "rows",
        };
        writeln!(
            f,
            "table {table}: primary key {key}, {sites}; a loss is judged by {judged}"
        )
    }

    /// The columns with their kinds.
    fn write_columns<W: fmt::Write>(&self, f: &mut fmt::Formatter<W>) -> fmt::Result {
        let catalog = self.0;
        let mut separator = "columns: ";
        for column in &catalog.columns {
            let (name, kind) = (column.name.as_str(), kind_word(column.kind));
            write!(f, "{separator}{name} {kind}")?;
            separator = ", ";
        }
        writeln!(f)
    }

    /// A projection.
    fn write_projection<W: fmt::Write>(
        &self,
        f: &mut fmt::Formatter<W>,
        p: usize,
        projection: &Projection,
    ) -> fmt::Result {
        let catalog = self.0;
        let name = projection.name.as_str();
        let columns = CodedColumns {
            catalog,
            projection,
        };
        let sort = ColumnNames {
            catalog,
            columns: projection.sort.as_slice(),
        };
        let cuts = CutWords(&projection.cuts);
        let joins = JoinWords {
            catalog,
            projection,
        };
        writeln!(
            f,
            "projection {p}, {name}: {columns}; sorted by {sort}; {cuts}{joins}"
        )
    }
}

impl fmt::Display for CatalogWords<'_> {
    fn fmt<W: fmt::Write>(&self, f: &mut fmt::Formatter<W>) -> fmt::Result {
        let catalog = self.0;
        self.write_table(f)?;
        self.write_columns(f)?;
        for (p, projection) in catalog.projections.iter().enumerate() {
            self.write_projection(f, p, projection)?;
        }
        Ok(())
    }
}
