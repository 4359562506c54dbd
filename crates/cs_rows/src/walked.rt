//! The rows that a walk finds, column by column.
ghost use Rattle.std.specs.Prelude.{◌≡◌, ◌<◌, ◌++◌, ℕ, length, map, slice_get, slice_index_or, Some, [], IfOk, OnOk, OnErr, take};
ghost use Rattle.cs_schema.specs.Values.{values, kind_of};
ghost use Rattle.cs_schema.specs.Rows.{cell};
ghost use Rattle.cs_rows.specs.WalkedView.{walked_data, AreColumns, IsWide};

use crate::columns::new_columns;
use cs_schema::{Catalog, Cells, Value};
use std::alloc::{AllocError, Global};
use std::marker::Model;

/// Keeps only the first `rows` cells of each column.
fn truncate_columns(columns: &mut Vec<Cells>, rows: usize)
    ensures count { length columns.new.items ≡ length columns.old.items }
    ensures kinds { (c : ℕ) (d : Cells) → c < length columns.old.items
        → kind_of (slice_index_or columns.new.items c d) ≡ kind_of (slice_index_or columns.old.items c d) }
    ensures cells { (c : ℕ) (d : Cells) → c < length columns.old.items
        → values (slice_index_or columns.new.items c d)
        ≡ take rows (values (slice_index_or columns.old.items c d)) }
{
    for c in 0..columns.len() {
        columns[c].truncate(rows);
    }
}

/// Moves the cells of other columns to the ends of columns of `rows` cells. If memory is refused, no cell changes.
fn append_columns(
    columns: &mut Vec<Cells>,
    rows: usize,
    others: Vec<Cells>,
) -> Result<(), AllocError>
    requires count { length others.items ≡ length columns.old.items }
    requires same_kinds { (c : ℕ) (d : Cells) → c < length columns.old.items
        → kind_of (slice_index_or columns.old.items c d) ≡ kind_of (slice_index_or others.items c d) }
    requires long { (c : ℕ) (d : Cells) → c < length columns.old.items → length (values (slice_index_or columns.old.items c d)) ≡ rows }
    ensures count { length columns.new.items ≡ length columns.old.items }
    ensures kinds { (c : ℕ) (d : Cells) → c < length columns.old.items
        → kind_of (slice_index_or columns.new.items c d) ≡ kind_of (slice_index_or columns.old.items c d) }
    ensures ok { OnOk result ((c : ℕ) (d : Cells) → c < length columns.old.items
        → values (slice_index_or columns.new.items c d)
        ≡ values (slice_index_or columns.old.items c d) ++ values (slice_index_or others.items c d)) }
    ensures err { OnErr result ((c : ℕ) (d : Cells) → c < length columns.old.items
        → values (slice_index_or columns.new.items c d) ≡ values (slice_index_or columns.old.items c d)) }
{
    let mut others = others;
    while let Some(cells) = others.pop() {
        let at = others.len();
        match columns[at].append(cells) {
            Ok(()) => {}
            Err(fault) => {
                truncate_columns(columns, rows);
                return Err(fault);
            }
        }
    }
    Ok(())
}

/// Rows of the whole table, in the order of the walk, stored by columns.
#[derive(Drop)]
pub struct Walked {
    columns: Vec<Cells>,
}

impl Model for Walked {
    ghost use Rattle.cs_rows.specs.WalkedView.{WalkedData, walked_data, AreColumns};

    ghost Value = { WalkedData };

    ghost view = { λ w. walked_data w.columns.items };

    ghost invariant = { λ w. AreColumns w.columns.items };
}

impl Walked {
    /// The rows of at least one column, all of the same length.
    pub fn from_columns(columns: Vec<Cells>) -> Self
        requires { AreColumns columns.items }
        ensures { result ≡ walked_data columns.items }
    {
        Walked { columns }
    }

    /// The columns, all of the same length.
    pub(crate) fn into_columns(self) -> Vec<Cells>
        ensures columns { AreColumns result.items }
        ensures rows { walked_data result.items ≡ self }
    {
        let Walked { columns } = self;
        columns
    }

    /// The columns, all of the same length, borrowed.
    pub(crate) fn columns(&self) -> &[Cells]
        ensures columns { AreColumns result.now }
        ensures rows { walked_data result.now ≡ self.now }
    {
        &self.columns
    }

    /// The allocator of the columns.
    pub(crate) fn allocator(&self) -> Global {
        *self.columns.allocator()
    }

    /// No rows, with the kinds of a catalog's columns.
    pub fn none(alloc: Global, catalog: &Catalog) -> Result<Self, AllocError>
        ensures kinds { IfOk result (λ walked. walked.kinds ≡ map (λ c. c.kind) catalog.now.columns) }
        ensures rows { IfOk result (λ walked. walked.rows ≡ []) }
    {
        let columns = new_columns(alloc, catalog, 0)?;
        Ok(Walked::from_columns(columns))
    }

    /// The number of rows.
    pub fn rows(&self) -> usize
        ensures count { result ≡ length self.now.rows }
        ensures wide { IsWide self.now }
    {
        self.columns[0].len()
    }

    /// The cells of one column, row by row.
    pub fn column(&self, c: usize) -> &Cells
        requires { c < length self.now.kinds }
        ensures kind { slice_get self.now.kinds c ≡ Some (kind_of result.now) }
        ensures cells { values result.now ≡ map (λ row. cell row c) self.now.rows }
    {
        &self.columns[c]
    }

    /// A copy of one cell.
    pub fn cell(&self, row: usize, c: usize) -> Value
        requires row { row < length self.now.rows }
        requires column { c < length self.now.kinds }
        ensures { result ≡ cell (slice_index_or self.now.rows row []) c }
    {
        self.column(c).cell(row)
    }

    /// Moves the rows of another walk of the same catalog to the end. If memory is refused, nothing changes.
    pub fn append(&mut self, other: Walked) -> Result<(), AllocError>
        requires { self.old.kinds ≡ other.kinds }
        ensures kinds { self.new.kinds ≡ self.old.kinds }
        ensures ok { OnOk result (self.new.rows ≡ self.old.rows ++ other.rows) }
        ensures err { OnErr result (self.new ≡ self.old) }
    {
        let rows = self.columns[0].len();
        let Walked { columns } = other;
        match append_columns(&mut self.columns, rows, columns) {
            Ok(()) => {}
            Err(fault) => return Err(fault),
        }
        Ok(())
    }
}
