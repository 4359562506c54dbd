//! Applying the layers of a delta to all columns of a segment.
ghost use Rattle.std.specs.Prelude.{◌≡◌, ◌≤◌, ◌<◌, ℕ, List, map, length, IfOk};
ghost use Rattle.cs_schema.specs.Values.{values, kind_of};
ghost use Rattle.cs_delta.specs.Image.{Pair};
ghost use Rattle.cs_delta.specs.Edits.{edited_from};
ghost use Rattle.cs_delta.specs.ItemView.{key_edits};
ghost use Rattle.cs_delta.specs.Layers.{IsLayerOf, edited_columns, AreLayers, ArePairs, IsMadeBy, HaveLength, key_of};
ghost use Rattle.cs_delta.specs.DeltaFile.{AllFit};

use crate::layer::Layer;
use crate::merging::{merge_column, merge_keys};
use cs_schema::Cells;
use cs_schema::limits::SEGMENT_ROWS;
use cs_segment::fault::FileFault;
use std::alloc::Global;
use std::mem::replace;

/// The storage keys of rows, and the cells of each column.
#[derive(Drop)]
pub struct Rows {
    pub keys: Vec<u32>,
    pub columns: Vec<Cells>,
}

/// Applies the items of a layer to rows. A column is added to `spent` once it is merged, so that the next one of its
/// kind reuses its memory. `Damaged` if the layer leaves more than 1,048,576 rows.
pub fn apply_layer(
    alloc: Global,
    spent: &mut Vec<Cells>,
    keys: &[u32],
    columns: Vec<Cells>,
    layer: &Layer,
) -> Result<Rows, FileFault>
    requires layer { IsLayerOf (map kind_of columns.items) (length keys.now) layer.now }
    requires lengths { HaveLength (length keys.now) (map values columns.items) }
    ensures keys { IfOk result (λ rows. rows.keys.items ≡ edited_from (key_edits layer.now) 0 keys.now) }
    ensures columns { IfOk result (λ rows. map values rows.columns.items ≡ edited_columns layer.now 0 (map values columns.items)) }
    ensures kinds { IfOk result (λ rows. map kind_of rows.columns.items ≡ map kind_of columns.items) }
    ensures few { IfOk result (λ rows. length rows.keys.items ≤ 1048576) }
    ensures many { result ≡ Err FileFault.Damaged → 1048576 < length (edited_from (key_edits layer.now) 0 keys.now) }
{
    let merged_keys = merge_keys(alloc, keys, layer)?;
    if merged_keys.len() > SEGMENT_ROWS as usize {
        return Err(FileFault::Damaged);
    }
    let rows = merged_keys.len();
    let mut merged = Vec::new(alloc);
    let mut columns = columns;
    for j in 0..columns.len() {
        // a projection has at most 32 columns, so moving the others up costs little
        let column = columns.remove(0);
        merged.push(merge_column(alloc, spent, rows, &column, layer, j)?)?;
        spent.push(column)?;
    }
    Ok(Rows {
        keys: merged_keys,
        columns: merged,
    })
}

/// Applies layers to rows, the lowest first. A layer above the lowest is skipped if it has no items. `Damaged` if a
/// layer leaves more than 1,048,576 rows.
pub fn apply_layers(
    alloc: Global,
    keys: &[u32],
    columns: Vec<Cells>,
    layers: &[Layer],
) -> Result<Rows, FileFault>
    requires some { 1 ≤ length layers.now }
    requires layers { AreLayers (map kind_of columns.items) keys.now layers.now }
    requires lengths { HaveLength (length keys.now) (map values columns.items) }
    ensures made { IfOk result (λ made. IsMadeBy keys.now (map values columns.items) layers.now made.keys.items (map values made.columns.items)) }
    ensures few { IfOk result (λ made. length made.keys.items ≤ 1048576) }
    ensures lengths { IfOk result (λ made. HaveLength (length made.keys.items) (map values made.columns.items)) }
    ensures kinds { IfOk result (λ made. map kind_of made.columns.items ≡ map kind_of columns.items) }
    ensures many { result ≡ Err FileFault.Damaged → (xs : List Pair) → map key_of xs ≡ keys.now → AllFit layers.now xs → ⊥ }
{
    let Some((lowest, above)) = layers.split_first() else {
        unreachable!()
    };
    let mut spent = Vec::new(alloc);
    let mut made = apply_layer(alloc, &mut spent, keys, columns, lowest)?;
    for layer in above {
        if !layer.is_empty() {
            let keys_below = made.keys.as_slice();
            let columns_below = replace(&mut made.columns, Vec::new(alloc));
            let next = apply_layer(alloc, &mut spent, keys_below, columns_below, layer)?;
            made = next;
        }
    }
    Ok(made)
}
