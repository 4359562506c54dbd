//! Comparing rows of two tables.
ghost use Rattle.std.specs.Prelude.{◌≡◌, ◌↔◌, ◌<◌, ◌⊎◌, IsTrue, length};
ghost use Rattle.cs_rows.specs.WalkedView.{count_of, row_of};
ghost use Rattle.cs_diagnosis.specs.Columns.{IsTableIn, rows_in};
ghost use Rattle.cs_diagnosis.specs.Next.{IsNext};

use cs_schema::{Catalog, Cells};
use std::cmp::Ordering;

/// The number of rows of a table.
pub fn row_count(catalog: &Catalog, columns: &[Cells]) -> usize
    requires { IsTableIn catalog.now columns.now }
    ensures { result ≡ count_of columns.now }
{
    let _catalog = catalog;
    columns[0].len()
}

/// Compares the keys of two rows.
fn key_order(catalog: &Catalog, first: &[Cells], i: usize, second: &[Cells], j: usize) -> Ordering
    requires first { IsTableIn catalog.now first.now }
    requires second { IsTableIn catalog.now second.now }
    requires here { i < count_of first.now }
    requires there { j < count_of second.now }
    ensures { IsNext catalog.now.key (rows_in first.now) (rows_in second.now) i j result }
{
    let key = catalog.key_column();
    first[key].compare_cell(i, &second[key], j)
}

/// Which of two tables has the row with the smaller key at these indices. A table without rows left has the greater
/// key.
pub fn next_of(catalog: &Catalog, first: &[Cells], i: usize, second: &[Cells], j: usize) -> Ordering
    requires first { IsTableIn catalog.now first.now }
    requires second { IsTableIn catalog.now second.now }
    requires some { (i < count_of first.now) ⊎ (j < count_of second.now) }
    ensures { IsNext catalog.now.key (rows_in first.now) (rows_in second.now) i j result }
{
    if i >= row_count(catalog, first) {
        return Ordering::Greater;
    }
    if j >= row_count(catalog, second) {
        return Ordering::Less;
    }
    key_order(catalog, first, i, second, j)
}

/// Whether two tables have the same row at these indices.
pub fn same_row(catalog: &Catalog, first: &[Cells], i: usize, second: &[Cells], j: usize) -> bool
    requires first { IsTableIn catalog.now first.now }
    requires second { IsTableIn catalog.now second.now }
    requires here { i < count_of first.now }
    requires there { j < count_of second.now }
    ensures { IsTrue result ↔ (row_of first.now i ≡ row_of second.now j) }
{
    let _catalog = catalog;
    for c in 0..first.len() {
        if !first[c].same(i, &second[c], j) {
            return false;
        }
    }
    true
}
