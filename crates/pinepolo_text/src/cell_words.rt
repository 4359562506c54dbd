//! Cells in words.
use cs_delta::{CellContent, ItemCell};
use cs_schema::{Cells, Value};
use std::fmt;

/// The cell of a row of a column: an int, a text in quotes, or nothing where there is no such row.
#[derive(Clone, Copy)]
pub struct CellWords<'a> {
    pub cells: &'a Cells,
    pub row: usize,
}

impl fmt::Display for CellWords<'_> {
    fn fmt<W: fmt::Write>(&self, f: &mut fmt::Formatter<W>) -> fmt::Result {
        let CellWords { cells, row } = *self;
        if row >= cells.len() {
            return Ok(());
        }
        match cells.cell(row) {
            Value::Int(int) => write!(f, "{int}"),
            Value::Text(text) => {
                let text = text.as_str();
                write!(f, "{text:?}")
            }
        }
    }
}

/// A cell that an item gives.
#[derive(Clone, Copy)]
pub struct ItemCellWords<'a>(pub &'a ItemCell<'a>);

impl fmt::Display for ItemCellWords<'_> {
    fn fmt<W: fmt::Write>(&self, f: &mut fmt::Formatter<W>) -> fmt::Result {
        let cell = self.0;
        match cell.content() {
            CellContent::Int(int) => write!(f, "{int}"),
            CellContent::Text(text) => write!(f, "{text:?}"),
        }
    }
}
