//! Reading a delta's file.
ghost use Rattle.std.specs.Prelude.{◌≡◌, ◌<◌, ◌↔◌, ◌==◌, ◌++◌, length, IfOk, IfSome, IfNone, OnOk, IsTrue};
ghost use Rattle.std.specs.List.{IsDistinct, filter_map, flat_map};
ghost use Rattle.cs_segment.specs.SegmentFile.{sealed};
ghost use Rattle.cs_delta.specs.DeltaFile.{DeltaData, IsDeltaFile, inserted_key};
ghost use Rattle.cs_delta.specs.Reading.{BeginsWithCounts, NoCounts, BeginsWithHead, NoHead};

use crate::delta::Delta;
use crate::item::Item;
use crate::layer::Layer;
use crate::reader::DeltaReader;
use cs_schema::Catalog;
use cs_schema::limits::{DELTA_KEYS, SEGMENT_ROWS};
use cs_segment::bytes::{after, number};
use cs_segment::fault::FileFault;
use cs_segment::seal::unseal;
use std::alloc::{AllocError, Global};

/// Appends the keys of the rows that a layer inserts.
fn push_keys(keys: &mut Vec<u32>, layer: &Layer) -> Result<(), AllocError>
    ensures { OnOk result (keys.new.items ≡ keys.old.items ++ filter_map inserted_key layer.now) }
{
    for i in 0..layer.len() {
        match layer.item(i) {
            Item::Insert { key, .. } => keys.push(key)?,
            Item::Delete { .. } => {}
            Item::Modify { .. } => {}
        }
    }
    Ok(())
}

/// The keys of the rows that the layers insert.
fn inserted_keys(alloc: Global, layers: &[Layer]) -> Result<Vec<u32>, AllocError>
    ensures { IfOk result (λ keys. keys.items ≡ flat_map (filter_map inserted_key) layers.now) }
{
    let mut keys = Vec::new(alloc);
    for layer in layers {
        push_keys(&mut keys, layer)?;
    }
    Ok(keys)
}

/// Whether no key occurs twice.
fn are_distinct(keys: Vec<u32>) -> bool
    ensures { IsTrue result ↔ IsDistinct ◌==◌ keys.items }
{
    let mut keys = keys;
    keys.sort_unstable();
    let sorted = keys.as_slice();
    for i in 1..sorted.len() {
        if sorted[i - 1] == sorted[i] {
            return false;
        }
    }
    true
}

/// Reads the part of a header that follows the magic bytes. Returns the number of rows, the highest key, and the bytes
/// after them. `None` if the header is cut short or of another segment, or if a number is out of its range.
fn read_counts(bytes: &[u8], p: u16, s: u16) -> Option<(u32, u32, &[u8])>
    ensures found { IfSome result (λ r. BeginsWithCounts p s bytes.now r.0 r.1 r.2.now) }
    ensures none { IfNone result (NoCounts p s bytes.now) }
{
    let placed = after(bytes, &p.to_be_bytes())?;
    let counted = after(placed, &s.to_be_bytes())?;
    let (rows, topped) = number(counted)?;
    let (top, rest) = number(topped)?;
    if rows > SEGMENT_ROWS || top < rows || top > DELTA_KEYS {
        return None;
    }
    Some((rows, top, rest))
}

/// The header of a delta's file.
#[derive(Clone, Copy, Drop)]
struct Head {
    version: u8,
    layers: u8,
    rows: u32,
    top: u32,
}

/// Decodes the header, of either version, at the start of the bytes. Returns it and the bytes after it. `None` if they
/// do not start with a header of this segment.
fn read_head(bytes: &[u8], p: u16, s: u16) -> Option<(Head, &[u8])>
    ensures found { IfSome result (λ r. BeginsWithHead p s bytes.now r.0.version r.0.layers r.0.rows r.0.top r.1.now) }
    ensures none { IfNone result (NoHead p s bytes.now) }
{
    if let Some(named) = after(bytes, b"CSDEL001") {
        let (rows, top, rest) = read_counts(named, p, s)?;
        let head = Head {
            version: 1,
            layers: 1,
            rows,
            top,
        };
        return Some((head, rest));
    }
    let named = after(bytes, b"CSDEL002")?;
    let (rows, top, counted) = read_counts(named, p, s)?;
    let (layers, rest) = counted.split_first()?;
    if *layers < 1 || *layers > 3 {
        return None;
    }
    let head = Head {
        version: 2,
        layers: *layers,
        rows,
        top,
    };
    Some((head, rest))
}

/// Reads the delta of segment `s` of projection `p`, of either version, from its bytes without the digest, which the
/// caller verifies. `Damaged` if the bytes with their digest are not a delta of this segment.
pub fn read_delta_text(
    alloc: Global,
    catalog: &Catalog,
    p: u16,
    s: u16,
    text: &[u8],
) -> Result<Delta, FileFault>
    requires { p < length catalog.now.projections }
    ensures found { IfOk result (IsDeltaFile catalog.now p s (sealed text.now)) }
    ensures refused { result ≡ Err FileFault.Damaged → (d : DeltaData) → IsDeltaFile catalog.now p s (sealed text.now) d → ⊥ }
    ensures only { IfOk result (λ delta. (d : DeltaData) → IsDeltaFile catalog.now p s (sealed text.now) d → d ≡ delta) }
{
    let Some((head, parts)) = read_head(text, p, s) else {
        return Err(FileFault::Damaged);
    };
    let reader = DeltaReader {
        alloc,
        catalog,
        p,
        rows: head.rows,
        top: head.top,
    };
    let layers = reader.layers(head.layers, parts)?;
    let keys = inserted_keys(alloc, &layers)?;
    if !are_distinct(keys) {
        return Err(FileFault::Damaged);
    }
    Ok(Delta {
        p,
        s,
        version: head.version,
        rows: head.rows,
        top: head.top,
        layers,
    })
}

/// Reads the delta of segment `s` of projection `p`, of either version. `Damaged` if the bytes are not a delta of this
/// segment.
pub fn read_delta(
    alloc: Global,
    catalog: &Catalog,
    p: u16,
    s: u16,
    bytes: &[u8],
) -> Result<Delta, FileFault>
    requires { p < length catalog.now.projections }
    ensures found { IfOk result (IsDeltaFile catalog.now p s bytes.now) }
    ensures refused { result ≡ Err FileFault.Damaged → (d : DeltaData) → IsDeltaFile catalog.now p s bytes.now d → ⊥ }
    ensures only { IfOk result (λ delta. (d : DeltaData) → IsDeltaFile catalog.now p s bytes.now d → d ≡ delta) }
{
    let Some(text) = unseal(bytes) else {
        return Err(FileFault::Damaged);
    };
    read_delta_text(alloc, catalog, p, s, text)
}
