//! Digests, rows and items in words.
use crate::cell_words::{CellWords, ItemCellWords};
use cs_delta::{Item, ItemRow};
use cs_segment::Segment;
use std::fmt;

/// A digest, two digits a byte.
#[derive(Clone, Copy)]
pub struct Hex<'a>(pub &'a [u8; 32]);

impl fmt::Display for Hex<'_> {
    fn fmt<W: fmt::Write>(&self, f: &mut fmt::Formatter<W>) -> fmt::Result {
        for byte in self.0 {
            write!(f, "{byte:02x}")?;
        }
        Ok(())
    }
}

/// A row of a segment's base.
#[derive(Clone, Copy)]
pub struct BaseRow<'a> {
    pub segment: &'a Segment,
    pub row: usize,
}

impl fmt::Display for BaseRow<'_> {
    fn fmt<W: fmt::Write>(&self, f: &mut fmt::Formatter<W>) -> fmt::Result {
        let BaseRow { segment, row } = *self;
        let mut separator = "";
        for cells in &segment.columns {
            let cell = CellWords { cells, row };
            write!(f, "{separator}{cell}")?;
            separator = ", ";
        }
        Ok(())
    }
}

/// The cells of a row that an item inserts.
#[derive(Clone, Copy)]
struct ItemRowWords<'a>(&'a ItemRow<'a>);

impl fmt::Display for ItemRowWords<'_> {
    fn fmt<W: fmt::Write>(&self, f: &mut fmt::Formatter<W>) -> fmt::Result {
        let row = self.0;
        let mut separator = "";
        for j in 0..row.len() {
            let cell = row.cell(j);
            let cell = ItemCellWords(&cell);
            write!(f, "{separator}{cell}")?;
            separator = ", ";
        }
        Ok(())
    }
}

/// An item of a delta.
#[derive(Clone, Copy)]
pub struct ItemWords<'a>(pub &'a Item<'a>);

impl fmt::Display for ItemWords<'_> {
    fn fmt<W: fmt::Write>(&self, f: &mut fmt::Formatter<W>) -> fmt::Result {
        match self.0 {
            Item::Insert { at, key, row } => {
                let row = ItemRowWords(row);
                write!(f, "insert before row {at}, key {key}: {row}")
            }
            Item::Delete { at } => write!(f, "delete row {at}"),
            Item::Modify { at, column, value } => {
                let value = ItemCellWords(value);
                write!(f, "modify row {at}, column {column}: {value}")
            }
        }
    }
}
