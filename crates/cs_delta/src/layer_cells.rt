//! The cells of a layer's items, in order.
ghost use Rattle.std.specs.Prelude.{◌≡◌, ◌<◌, ◌≤◌, [], ◌∷◌, ◌++◌, length, OnOk, OnErr};
ghost use Rattle.cs_schema.specs.declared.cells.Value.{Value as ValueData};
ghost use Rattle.cs_schema.specs.Rows.{cell};
ghost use Rattle.cs_delta.specs.CellContents.{content_value, IsShort};

use cs_schema::Texts;
use std::alloc::{AllocError, Global};
use std::marker::Model;

/// The content of a cell: an int, or a text of at most 255 bytes.
#[derive(Clone, Copy)]
pub enum CellContent<'a> {
    Int(i64),
    Text(&'a str),
}

/// A cell as it is stored: an int, or the index of a text in the block.
#[derive(Clone, Copy)]
enum CellPlace {
    Int(i64),
    Text(usize),
}

/// Cells, whose texts are in one block. Contracts see their values.
#[derive(Drop)]
pub(crate) struct LayerCells {
    places: Vec<CellPlace>,
    texts: Texts,
}

impl Model for LayerCells {
    ghost use Rattle.std.specs.Prelude.{List};
    ghost use Rattle.cs_schema.specs.declared.cells.Value.{Value as ValueData};

    ghost Value = { List ValueData };

    ghost use Rattle.cs_delta.specs.LayerCellsView.{cell_values, AreThere};

    ghost view = { cell_values };

    ghost invariant = { AreThere };
}

impl LayerCells {
    /// No cells.
    pub(crate) fn new(alloc: Global) -> Self
        ensures { result ≡ [] }
    {
        LayerCells {
            places: Vec::new(alloc),
            texts: Texts::new(alloc),
        }
    }

    /// The number of cells.
    pub(crate) fn len(&self) -> usize
        ensures { result ≡ length self.now }
    {
        self.places.len()
    }

    /// The content of the cell at an index.
    pub(crate) fn content(&self, at: usize) -> CellContent<'_>
        requires { at < length self.now }
        ensures value { content_value result ≡ cell self.now at }
        ensures fits { IsShort result }
    {
        match self.places[at] {
            CellPlace::Int(int) => CellContent::Int(int),
            CellPlace::Text(text) => CellContent::Text(self.texts.get(text)),
        }
    }

    /// Appends an int. If memory is refused, nothing changes.
    pub(crate) fn push_int(&mut self, int: i64) -> Result<(), AllocError>
        ensures ok { OnOk result (self.new ≡ self.old ++ ValueData.Int int ∷ []) }
        ensures err { OnErr result (self.new ≡ self.old) }
    {
        self.places.push(CellPlace::Int(int))?;
        Ok(())
    }

    /// Appends a text. If memory is refused, nothing changes.
    pub(crate) fn push_text(&mut self, text: &str) -> Result<(), AllocError>
        requires { length text.now ≤ 255 }
        ensures ok { OnOk result (self.new ≡ self.old ++ ValueData.Text text.now ∷ []) }
        ensures err { OnErr result (self.new ≡ self.old) }
    {
        let count = self.texts.len();
        self.texts.push(text)?;
        if self.places.push(CellPlace::Text(count)).is_err() {
            self.texts.truncate(count);
            return Err(AllocError);
        }
        Ok(())
    }
}
