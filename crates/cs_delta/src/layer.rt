//! The layers of a delta.
ghost use Rattle.std.specs.Prelude.{◌≡◌, ◌==◌, ◌<◌, map, length, slice_get, Some, All};
ghost use Rattle.cs_delta.specs.ItemView.{change_of};
ghost use Rattle.cs_delta.specs.StoredItems.{stored_change, AreAmong};

use crate::item::{Item, ItemRow};
use crate::item_cell::ItemCell;
use crate::layer_cells::LayerCells;
use crate::stored_item::StoredItem;
use std::marker::Model;

/// The items of a layer, and their cells, whose texts are in one block. Contracts see the changes.
#[derive(Drop)]
pub struct Layer {
    items: Vec<StoredItem>,
    cells: LayerCells,
    /// The number of cells of a row.
    width: usize,
}

impl Model for Layer {
    ghost use Rattle.std.specs.Prelude.{List};
    ghost use Rattle.cs_delta.specs.Image.{Change};

    ghost Value = { List Change };

    ghost use Rattle.cs_delta.specs.LayerView.{layer_changes, HaveCells};

    ghost view = { layer_changes };

    ghost invariant = { HaveCells };
}

impl Layer {
    /// A layer of these items, whose cells are in `cells`. An inserted row has `width` cells.
    pub(crate) fn new(items: Vec<StoredItem>, cells: LayerCells, width: usize) -> Self
        requires { All (AreAmong (length cells) width) items.items }
        ensures { result ≡ map (stored_change cells width) items.items }
    {
        Layer {
            items,
            cells,
            width,
        }
    }

    /// The number of items.
    pub fn len(&self) -> usize
        ensures { result ≡ length self.now }
    {
        self.items.len()
    }

    /// Whether there are no items.
    pub fn is_empty(&self) -> bool
        ensures { result ≡ (length self.now == 0) }
    {
        self.len() == 0
    }

    /// The item at an index, from 0.
    pub fn item(&self, number: usize) -> Item<'_>
        requires { number < length self.now }
        ensures { slice_get self.now number ≡ Some (change_of result) }
    {
        match self.items[number] {
            StoredItem::Insert { at, key, from } => {
                let row = ItemRow {
                    cells: &self.cells,
                    from,
                    width: self.width,
                };
                Item::Insert { at, key, row }
            }
            StoredItem::Delete { at } => Item::Delete { at },
            StoredItem::Modify { at, column, from } => {
                let value = ItemCell {
                    cells: &self.cells,
                    at: from,
                };
                Item::Modify { at, column, value }
            }
        }
    }
}
