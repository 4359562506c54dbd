//! The cells of items.
ghost use Rattle.std.specs.Prelude.{◌≡◌};
ghost use Rattle.cs_delta.specs.CellContents.{content_value, IsShort};

use crate::layer_cells::{CellContent, LayerCells};
use std::marker::Model;

/// A cell of an item, borrowed from its layer. Contracts see its value.
#[derive(Drop)]
pub struct ItemCell<'a> {
    pub(crate) cells: &'a LayerCells,
    pub(crate) at: usize,
}

impl<'a> Model for ItemCell<'a> {
    ghost use Rattle.cs_schema.specs.declared.cells.Value.{Value as ValueData};

    ghost Value = { ValueData };

    ghost use Rattle.cs_delta.specs.ItemCellView.{cell_value, IsAmong};

    ghost view = { cell_value };

    ghost invariant = { IsAmong };
}

impl<'a> ItemCell<'a> {
    /// The content of the cell.
    pub fn content(&self) -> CellContent<'a>
        ensures value { content_value result ≡ self.now }
        ensures fits { IsShort result }
    {
        let cells = self.cells;
        cells.content(self.at)
    }
}
