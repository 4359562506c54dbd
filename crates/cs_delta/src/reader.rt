//! Decoding the layers and items of a delta.
ghost use Rattle.std.specs.Prelude.{◌≡◌, ◌<◌, ◌≤◌, ◌∷◌, ℕ, List, length, IfOk};
ghost use Rattle.cs_schema.specs.declared.cells.Value.{Value};
ghost use Rattle.cs_schema.specs.CatalogData.{CatalogData};
ghost use Rattle.cs_delta.specs.Reading.{NoCell, NoRow, NoItem, BeginsWithLayer, NoLayer, AreLayersOf, NoLayers};
ghost use Rattle.cs_delta.specs.Adding.{AddsCell, AddsRow, AddsItem};

use crate::item_list::{are_in_order, rows_left};
use crate::layer::Layer;
use crate::layer_cells::LayerCells;
use crate::stored_item::StoredItem;
use cs_codec::Cell;
use cs_schema::{Catalog, Kind, Word};
use cs_segment::bytes::{after, number};
use cs_segment::fault::FileFault;
use std::alloc::Global;

/// Appends the cell at the start of the bytes. Returns the bytes after it. `Damaged` if they do not start with a cell
/// of this kind.
fn read_cell<'b>(cells: &mut LayerCells, kind: Kind, bytes: &'b [u8]) -> Result<&'b [u8], FileFault>
    ensures found { IfOk result (λ rest. AddsCell kind bytes.now cells.old cells.new rest.now) }
    ensures refused { result ≡ Err FileFault.Damaged → NoCell kind bytes.now }
{
    match kind {
        Kind::Int => {
            let Some((int, end)) = <i64 as Cell>::read(bytes, 0) else {
                return Err(FileFault::Damaged);
            };
            cells.push_int(int)?;
            Ok(&bytes[end..])
        }
        Kind::Text => {
            let Some((text, end)) = <Word as Cell>::read(bytes, 0) else {
                return Err(FileFault::Damaged);
            };
            cells.push_text(text.as_str())?;
            Ok(&bytes[end..])
        }
    }
}

/// Decodes a deletion, from after its tag, in a layer on `below` rows. Returns it and the bytes after it.
fn read_deletion(below: u32, bytes: &[u8]) -> Result<(StoredItem, &[u8]), FileFault>
    ensures found { IfOk result (λ r. (C : CatalogData) (p rows top : ℕ) (cells : List Value)
        → AddsItem C p rows top below (2 ∷ bytes.now) cells cells r.0 r.1.now) }
    ensures refused { result ≡ Err FileFault.Damaged → (C : CatalogData) (p rows top : ℕ) → NoItem C p rows top below (2 ∷ bytes.now) }
{
    let Some((at, rest)) = number(bytes) else {
        return Err(FileFault::Damaged);
    };
    if at >= below {
        return Err(FileFault::Damaged);
    }
    Ok((StoredItem::Delete { at }, rest))
}

/// Decodes the items of one delta. The projection gives the kinds of a row's cells, the file's header the range of new
/// keys.
#[derive(Clone, Copy)]
pub(crate) struct DeltaReader<'a> {
    pub(crate) alloc: Global,
    pub(crate) catalog: &'a Catalog,
    pub(crate) p: u16,
    /// The number of rows of the base. Inserted rows have keys above it.
    pub(crate) rows: u32,
    /// The highest key ever given in the segment.
    pub(crate) top: u32,
    ghost inside: { p < length catalog.now.projections },
    ghost top_in_limits: { top ≤ 4194304 },
}

impl DeltaReader<'_> {
    /// Appends the cells of the row at the start of the bytes. Returns the bytes after it.
    fn row<'b>(&self, cells: &mut LayerCells, bytes: &'b [u8]) -> Result<&'b [u8], FileFault>
        ensures found { IfOk result (λ rest. AddsRow self.now.catalog.now self.now.p bytes.now cells.old cells.new rest.now) }
        ensures refused { result ≡ Err FileFault.Damaged → NoRow self.now.catalog.now self.now.p bytes.now }
    {
        let mut rest = bytes;
        for j in 0..self.catalog.width(self.p) {
            rest = read_cell(cells, self.catalog.column_kind(self.p, j), rest)?;
        }
        Ok(rest)
    }

    /// Decodes an insertion, from after its tag, in a layer on `below` rows, and appends its cells. Returns it and the
    /// bytes after it.
    fn insertion<'b>(
        &self,
        cells: &mut LayerCells,
        below: u32,
        bytes: &'b [u8],
    ) -> Result<(StoredItem, &'b [u8]), FileFault>
        ensures found { IfOk result (λ r. AddsItem self.now.catalog.now self.now.p self.now.rows self.now.top below
            (1 ∷ bytes.now) cells.old cells.new r.0 r.1.now) }
        ensures refused { result ≡ Err FileFault.Damaged → NoItem self.now.catalog.now self.now.p self.now.rows self.now.top below (1 ∷ bytes.now) }
    {
        let Some((at, keyed)) = number(bytes) else {
            return Err(FileFault::Damaged);
        };
        let Some((key, row)) = number(keyed) else {
            return Err(FileFault::Damaged);
        };
        if at > below || key <= self.rows || key > self.top {
            return Err(FileFault::Damaged);
        }
        let from = cells.len();
        let rest = self.row(cells, row)?;
        Ok((StoredItem::Insert { at, key, from }, rest))
    }

    /// Decodes a modification, from after its tag, in a layer on `below` rows, and appends its cell. Returns it and the
    /// bytes after it.
    fn modification<'b>(
        &self,
        cells: &mut LayerCells,
        below: u32,
        bytes: &'b [u8],
    ) -> Result<(StoredItem, &'b [u8]), FileFault>
        ensures found { IfOk result (λ r. AddsItem self.now.catalog.now self.now.p self.now.rows self.now.top below
            (3 ∷ bytes.now) cells.old cells.new r.0 r.1.now) }
        ensures refused { result ≡ Err FileFault.Damaged → NoItem self.now.catalog.now self.now.p self.now.rows self.now.top below (3 ∷ bytes.now) }
    {
        let Some((at, placed)) = number(bytes) else {
            return Err(FileFault::Damaged);
        };
        let Some((&column, cell)) = placed.split_first() else {
            return Err(FileFault::Damaged);
        };
        if at >= below || column as usize >= self.catalog.width(self.p) {
            return Err(FileFault::Damaged);
        }
        let from = cells.len();
        let kind = self.catalog.column_kind(self.p, column as usize);
        let rest = read_cell(cells, kind, cell)?;
        Ok((StoredItem::Modify { at, column, from }, rest))
    }

    /// Decodes the item at the start of the bytes, in a layer on `below` rows, and appends its cells. Returns it and
    /// the bytes after it.
    fn item<'b>(
        &self,
        cells: &mut LayerCells,
        below: u32,
        bytes: &'b [u8],
    ) -> Result<(StoredItem, &'b [u8]), FileFault>
        ensures found { IfOk result (λ r. AddsItem self.now.catalog.now self.now.p self.now.rows self.now.top below
            bytes.now cells.old cells.new r.0 r.1.now) }
        ensures refused { result ≡ Err FileFault.Damaged → NoItem self.now.catalog.now self.now.p self.now.rows self.now.top below bytes.now }
    {
        if let Some(insertion) = after(bytes, &[1]) {
            return self.insertion(cells, below, insertion);
        }
        if let Some(deletion) = after(bytes, &[2]) {
            return read_deletion(below, deletion);
        }
        if let Some(modification) = after(bytes, &[3]) {
            return self.modification(cells, below, modification);
        }
        Err(FileFault::Damaged)
    }

    /// Decodes the layer on `below` rows at the start of the bytes. Returns it and the bytes after it.
    fn layer<'b>(&self, below: u32, bytes: &'b [u8]) -> Result<(Layer, &'b [u8]), FileFault>
        ensures found { IfOk result (λ r. BeginsWithLayer self.now.catalog.now self.now.p self.now.rows self.now.top below bytes.now r.0 r.1.now) }
        ensures refused { result ≡ Err FileFault.Damaged → NoLayer self.now.catalog.now self.now.p self.now.rows self.now.top below bytes.now }
    {
        let Some((count, counted)) = number(bytes) else {
            return Err(FileFault::Damaged);
        };
        let mut items = Vec::new(self.alloc);
        let mut cells = LayerCells::new(self.alloc);
        let mut rest = counted;
        for _ in 0..count {
            let (item, behind) = self.item(&mut cells, below, rest)?;
            items.push(item)?;
            rest = behind;
        }
        let layer = Layer::new(items, cells, self.catalog.width(self.p));
        if !are_in_order(&layer) {
            return Err(FileFault::Damaged);
        }
        Ok((layer, rest))
    }

    /// Decodes `count` layers, each on the rows that those below it leave. `Damaged` if the bytes are not exactly
    /// these.
    pub(crate) fn layers(&self, count: u8, bytes: &[u8]) -> Result<Vec<Layer>, FileFault>
        ensures found { IfOk result (λ layers. AreLayersOf self.now.catalog.now self.now.p self.now.rows self.now.top count bytes.now layers.items) }
        ensures refused { result ≡ Err FileFault.Damaged → NoLayers self.now.catalog.now self.now.p self.now.rows self.now.top count bytes.now }
    {
        let mut layers = Vec::new(self.alloc);
        let mut rest = bytes;
        let mut below = u64::from(self.rows);
        for _ in 0..count {
            if below > u64::from(u32::MAX) {
                return Err(FileFault::Damaged);
            }
            let here = below as u32;
            let (layer, behind) = self.layer(here, rest)?;
            below = rows_left(here, &layer);
            layers.push(layer)?;
            rest = behind;
        }
        if !rest.is_empty() {
            return Err(FileFault::Damaged);
        }
        Ok(layers)
    }
}
