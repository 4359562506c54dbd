//! Images: segments with their deltas applied.
ghost use Rattle.std.specs.Prelude.{◌≡◌, ◌≤◌, ◌<◌, ℕ, List, length, slice_index, slice_index_or, IfOk, IsTrue, All, []};
ghost use Rattle.cs_schema.specs.declared.kinds.Kind.{Kind};
ghost use Rattle.cs_schema.specs.Values.{values, kind_of};
ghost use Rattle.cs_delta.specs.Image.{image_keys, position_of_key};
ghost use Rattle.cs_delta.specs.KindedImage.{AreOfOneCatalog, merged_image, image_column, base_keys};
ghost use Rattle.cs_delta.specs.DeltaFile.{CanMerge};

use crate::applying::apply_layers;
use crate::columns::{count, empty_like};
use crate::delta::Delta;
use crate::keys::Keys;
use crate::layer::Layer;
use cs_schema::Cells;
use cs_segment::fault::FileFault;
use cs_segment::segment::Segment;
use std::alloc::{AllocError, Global};
use std::marker::Model;

/// The live rows of a segment after its delta is applied: their storage keys, and the cells of each column.
#[derive(Drop)]
pub struct Image {
    keys: Keys,
    columns: Vec<Cells>,
    top: u32,
}

impl Model for Image {
    ghost use Rattle.cs_delta.specs.KindedImage.{KindedImage};

    ghost Value = { KindedImage };

    ghost use Rattle.cs_delta.specs.ImageView.{image_data, IsImage};

    ghost view = { image_data };

    ghost invariant = { IsImage };
}

impl Image {
    /// The number of rows.
    pub fn rows(&self) -> u32
        ensures { result ≡ length self.now.image.pairs }
    {
        self.keys.len()
    }

    /// The highest storage key ever given in the segment.
    pub fn top(&self) -> u32
        ensures { result ≡ self.now.image.top }
    {
        self.top
    }

    /// The cells of the `j`-th column of the projection.
    pub fn column(&self, j: usize) -> &Cells
        requires { j < length self.now.kinds }
        ensures values { values result.now ≡ image_column self.now.image j }
        ensures kind { kind_of result.now ≡ slice_index_or self.now.kinds j Kind.Int }
    {
        &self.columns[j]
    }

    /// The storage key of the row at a position, from 0.
    pub fn key_at(&self, i: u32) -> u32
        requires { i < length self.now.image.pairs }
        ensures { result ≡ slice_index (image_keys self.now.image) i }
    {
        self.keys.at(i)
    }

    /// The position of the row with this key, or `None` if no live row has it.
    pub fn position_of(&self, key: u32) -> Option<u32>
        ensures { result ≡ position_of_key self.now.image key }
    {
        self.keys.position_of(key)
    }
}

/// The keys 1 to `rows`.
fn first_keys(alloc: Global, rows: u32) -> Result<Vec<u32>, AllocError>
    requires { rows ≤ 1048576 }
    ensures { IfOk result (λ keys. keys.items ≡ base_keys rows) }
{
    let mut keys = Vec::with_capacity(alloc, rows as usize)?;
    for i in 0..rows {
        keys.push(i + 1)?;
    }
    Ok(keys)
}

/// Applies a delta to a copy of a segment. `Damaged` if the delta is for another number of rows, or if a layer leaves
/// more than 1,048,576 rows.
pub fn merge(alloc: Global, segment: &Segment, delta: &Delta) -> Result<Image, FileFault>
    requires { AreOfOneCatalog segment.now delta.now }
    ensures merged { IfOk result (λ image. image ≡ merged_image segment.now delta.now) }
    ensures can { IfOk result (λ image. CanMerge segment.now.base delta.now) }
    ensures refused { result ≡ Err FileFault.Damaged → CanMerge segment.now.base delta.now → ⊥ }
{
    let copy = copy_of(alloc, segment)?;
    merge_owned(alloc, copy, delta)
}

/// Applies a delta to a segment. If the delta has no items, the columns are moved. `Damaged` if the delta is for
/// another number of rows, or if a layer leaves more than 1,048,576 rows.
pub fn merge_owned(alloc: Global, segment: Segment, delta: &Delta) -> Result<Image, FileFault>
    requires { AreOfOneCatalog segment delta.now }
    ensures merged { IfOk result (λ image. image ≡ merged_image segment delta.now) }
    ensures can { IfOk result (λ image. CanMerge segment.base delta.now) }
    ensures refused { result ≡ Err FileFault.Damaged → CanMerge segment.base delta.now → ⊥ }
{
    if segment.rows != delta.rows {
        return Err(FileFault::Damaged);
    }
    let Segment { rows, columns, .. } = segment;
    if say_nothing(&delta.layers) {
        return Ok(Image {
            keys: Keys::first(alloc, rows),
            columns,
            top: delta.top,
        });
    }
    let keys = first_keys(alloc, rows)?;
    let made = apply_layers(alloc, &keys, columns, &delta.layers)?;
    let keys = Keys::listed(alloc, made.keys)?;
    Ok(Image {
        keys,
        columns: made.columns,
        top: delta.top,
    })
}

/// Whether no layer has items.
fn say_nothing(layers: &[Layer]) -> bool
    ensures { IsTrue result → All (λ layer. layer ≡ []) layers.now }
{
    for layer in layers {
        if !layer.is_empty() {
            return false;
        }
    }
    true
}

/// A copy of a segment.
fn copy_of(alloc: Global, segment: &Segment) -> Result<Segment, AllocError>
    ensures { IfOk result (λ copy. copy ≡ segment.now) }
{
    let mut columns = Vec::new(alloc);
    for column in &segment.columns {
        let mut copy = empty_like(alloc, column);
        copy.extend(column, 0, count(column))?;
        columns.push(copy)?;
    }
    Ok(Segment {
        p: segment.p,
        s: segment.s,
        rows: segment.rows,
        columns,
    })
}
