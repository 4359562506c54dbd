//! Columns borrowed whole from an image.
ghost use Rattle.std.specs.Prelude.{◌≡◌, ◌++◌, ◌∷◌, [], None, OnOk, slice_index_or};
ghost use Rattle.std.specs.Option.{is_some, option_map};

use cs_schema::Cells;
use std::alloc::{AllocError, Global};
use std::marker::Model;

/// For each column, from the first on, the borrowed column that replaces it, if any.
#[derive(Drop)]
pub struct BorrowedColumns<'a> {
    columns: Vec<Option<&'a Cells>>,
}

impl<'a> Model for BorrowedColumns<'a> {
    ghost use Rattle.std.specs.Prelude.{List, Option, map};
    ghost use Rattle.std.specs.Option.{option_map};
    ghost use Rattle.cs_schema.specs.declared.cells.Cells.{Cells};

    ghost Value = { List (Option Cells) };

    ghost view = { λ l. map (option_map (λ column. column.now)) l.columns.items };
}

impl<'a> BorrowedColumns<'a> {
    /// No borrowed columns.
    pub fn none(alloc: Global) -> Self
        ensures { result ≡ [] }
    {
        BorrowedColumns {
            columns: Vec::new(alloc),
        }
    }

    /// Adds the entry of the next column: the borrowed column that replaces it, or `None`.
    pub fn push(&mut self, column: Option<&'a Cells>) -> Result<(), AllocError>
        ensures ok { OnOk result (self.new ≡ self.old ++ option_map (λ borrowed. borrowed.now) column.entry ∷ []) }
    {
        self.columns.push(column)?;
        Ok(())
    }

    /// The borrowed column that replaces a column, if any.
    pub fn column(&self, c: usize) -> Option<&Cells>
        ensures { option_map (λ borrowed. borrowed.now) result ≡ slice_index_or self.now c None }
    {
        if c < self.columns.len() {
            return self.columns[c];
        }
        None
    }

    /// Whether a borrowed column replaces this one.
    pub fn has(&self, c: usize) -> bool
        ensures { result ≡ is_some (slice_index_or self.now c None) }
    {
        self.column(c).is_some()
    }
}
