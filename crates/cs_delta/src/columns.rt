//! Columns that are built from the cells of other columns.
ghost use Rattle.std.specs.Prelude.{◌≡◌, ◌++◌, ◌∷◌, [], length, IsTrue, OnOk};
ghost use Rattle.cs_schema.specs.Values.{values, kind_of, value_kind};

use crate::item_cell::ItemCell;
use crate::layer_cells::CellContent;
use cs_schema::Cells;
use std::alloc::{AllocError, Global};

/// An empty column of the kind of another one.
pub fn empty_like(alloc: Global, cells: &Cells) -> Cells
    ensures values { values result ≡ [] }
    ensures kind { kind_of result ≡ kind_of cells.now }
{
    Cells::new(alloc, cells.kind())
}

/// Whether two columns are of the same kind.
fn are_alike(cells: &Cells, others: &Cells) -> bool
    ensures { IsTrue result → kind_of cells.now ≡ kind_of others.now }
{
    match (cells, others) {
        (Cells::Ints(_), Cells::Ints(_)) => true,
        (Cells::Texts(_), Cells::Texts(_)) => true,
        _ => false,
    }
}

/// An empty column that reuses the memory of this one.
fn emptied(cells: Cells) -> Cells
    ensures values { values result ≡ [] }
    ensures kind { kind_of result ≡ kind_of cells }
{
    let mut cells = cells;
    cells.truncate(0);
    cells
}

/// An empty column of the kind of `cells`. It takes over the memory of a column in `spent` if one is of that kind.
pub fn empty_in(alloc: Global, spent: &mut Vec<Cells>, cells: &Cells) -> Cells
    ensures values { values result ≡ [] }
    ensures kind { kind_of result ≡ kind_of cells.now }
{
    for at in 0..spent.len() {
        if are_alike(&spent[at], cells) {
            return emptied(spent.swap_remove(at));
        }
    }
    empty_like(alloc, cells)
}

/// The number of cells.
pub fn count(cells: &Cells) -> usize
    ensures { result ≡ length (values cells.now) }
{
    cells.len()
}

/// Appends the cell of an item, which is of the column's kind.
pub fn push(out: &mut Cells, cell: &ItemCell) -> Result<(), AllocError>
    requires { value_kind cell.now ≡ kind_of out.old }
    ensures values { OnOk result (values out.new ≡ values out.old ++ cell.now ∷ []) }
    ensures kind { kind_of out.new ≡ kind_of out.old }
{
    match (out, cell.content()) {
        (Cells::Ints(out), CellContent::Int(int)) => out.push(int)?,
        (Cells::Texts(out), CellContent::Text(text)) => out.push(text)?,
        _ => unreachable!(),
    }
    Ok(())
}
