//! The items of a delta.
ghost use Rattle.std.specs.Prelude.{◌≡◌, ◌<◌, length};
ghost use Rattle.cs_schema.specs.Rows.{cell};

use crate::item_cell::ItemCell;
use crate::layer_cells::LayerCells;
use std::marker::Model;

/// The cells of an inserted row, borrowed from its layer. Contracts see their values.
#[derive(Drop)]
pub struct ItemRow<'a> {
    pub(crate) cells: &'a LayerCells,
    /// The index of the row's first cell among the cells of the layer.
    pub(crate) from: usize,
    pub(crate) width: usize,
}

impl<'a> Model for ItemRow<'a> {
    ghost use Rattle.std.specs.Prelude.{List};
    ghost use Rattle.cs_schema.specs.declared.cells.Value.{Value as ValueData};

    ghost Value = { List ValueData };

    ghost use Rattle.cs_delta.specs.ItemRowView.{row_cells, IsWithin};

    ghost view = { row_cells };

    ghost invariant = { IsWithin };
}

impl<'a> ItemRow<'a> {
    /// The number of cells.
    pub fn len(&self) -> usize
        ensures { result ≡ length self.now }
    {
        self.width
    }

    /// The cell in the `j`-th column of the projection.
    pub fn cell(&self, j: usize) -> ItemCell<'a>
        requires { j < length self.now }
        ensures { result ≡ cell self.now j }
    {
        let cells = self.cells;
        // the call states that the number of cells fits `usize`, and so does each index
        let _count = cells.len();
        ItemCell {
            cells,
            at: self.from + j,
        }
    }
}

/// A change at position `at`, from 0, of the image of the layers below: a row with a key is inserted before that
/// position, the row there is deleted, or a cell of that row is replaced.
#[derive(Drop)]
pub enum Item<'a> {
    Insert {
        at: u32,
        key: u32,
        row: ItemRow<'a>,
    },
    Delete {
        at: u32,
    },
    Modify {
        at: u32,
        column: u8,
        value: ItemCell<'a>,
    },
}
