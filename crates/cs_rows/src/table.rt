//! The rows of the whole table, in columns that are owned, or borrowed from images.
ghost use Rattle.std.specs.Prelude.{◌≡◌, ◌<◌, ℕ, length, map, slice_get, slice_index_or, None, Some, IfOk};
ghost use Rattle.cs_schema.specs.Values.{values, kind_of};
ghost use Rattle.cs_schema.specs.Rows.{cell};
ghost use Rattle.cs_rows.specs.WalkedView.{walked_data, AreColumns};
ghost use Rattle.cs_rows.specs.TableView.{over};

use crate::borrowed_columns::BorrowedColumns;
use crate::walked::Walked;
use cs_schema::{Cells, Kind};
use std::alloc::{AllocError, Global};
use std::marker::Model;

/// Rows of the whole table, in the order of the walk. A column that is whole in one image is borrowed instead of
/// copied.
#[derive(Drop)]
pub struct Table<'a> {
    owned: Vec<Cells>,
    borrowed: BorrowedColumns<'a>,
}

/// The borrowed column, if there is one; else the owned one.
fn column_at<'a>(owned: &'a [Cells], borrowed: &'a BorrowedColumns<'a>, c: usize) -> &'a Cells
    requires { c < length owned.now }
    ensures { result.now ≡ slice_index_or (over owned.now borrowed.now) c result.now }
{
    match borrowed.column(c) {
        Some(column) => column,
        None => &owned[c],
    }
}

impl<'a> Model for Table<'a> {
    ghost use Rattle.cs_rows.specs.WalkedView.{WalkedData, walked_data, AreColumns};
    ghost use Rattle.cs_rows.specs.TableView.{all_columns};

    ghost Value = { WalkedData };

    ghost view = { λ t. walked_data (all_columns t) };

    ghost invariant = { λ t. AreColumns (all_columns t) };
}

impl<'a> Table<'a> {
    /// The rows of a walk.
    pub fn of_walk(alloc: Global, walked: Walked) -> Self
        ensures { result ≡ walked }
    {
        Table {
            owned: walked.into_columns(),
            borrowed: BorrowedColumns::none(alloc),
        }
    }

    /// The rows of a walk. All columns are borrowed from it.
    pub fn borrowing(alloc: Global, walked: &'a Walked) -> Result<Self, AllocError>
        ensures { IfOk result (λ table. table ≡ walked.entry.now) }
    {
        Table::of_borrowed(alloc, walked.columns())
    }

    /// The rows of at least one column, all of the same length and all borrowed.
    pub fn of_borrowed(alloc: Global, columns: &'a [Cells]) -> Result<Self, AllocError>
        requires { AreColumns columns.now }
        ensures { IfOk result (λ table. table ≡ walked_data columns.entry.now) }
    {
        let mut owned = Vec::new(alloc);
        let mut borrowed = BorrowedColumns::none(alloc);
        for c in 0..columns.len() {
            owned.push(Cells::new(alloc, Kind::Int))?;
            borrowed.push(Some(&columns[c]))?;
        }
        Ok(Table { owned, borrowed })
    }

    /// The rows of at least one column, all of the same length, some owned and the others borrowed.
    pub fn of_columns(owned: Vec<Cells>, borrowed: BorrowedColumns<'a>) -> Self
        requires { AreColumns (over owned.items borrowed) }
        ensures { result ≡ walked_data (over owned.items borrowed.entry) }
    {
        Table { owned, borrowed }
    }

    /// The owned columns, and the borrowed ones that replace some of them.
    pub fn into_columns(self) -> (Vec<Cells>, BorrowedColumns<'a>)
        ensures columns { AreColumns (over result.0.items result.1) }
        ensures same { walked_data (over result.0.items result.1) ≡ self.entry }
    {
        (self.owned, self.borrowed)
    }

    /// The number of rows.
    pub fn rows(&self) -> usize
        ensures { result ≡ length self.now.rows }
    {
        column_at(&self.owned, &self.borrowed, 0).len()
    }

    /// The cells of one column, row by row.
    pub fn column(&self, c: usize) -> &Cells
        requires { c < length self.now.kinds }
        ensures kind { slice_get self.now.kinds c ≡ Some (kind_of result.now) }
        ensures cells { values result.now ≡ map (λ row. cell row c) self.now.rows }
    {
        column_at(&self.owned, &self.borrowed, c)
    }
}
