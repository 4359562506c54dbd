//! Files of deltas: read exactly, or damaged.
ghost use Rattle.std.specs.Prelude.{◌<◌, length};

use super::{LOWER, NO_ITEMS, UPPER, one_column, single, stacked};
use crate::made::are_made;
use cs_codec::Cell;
use cs_delta::{CellContent, Delta, Item, ItemCell, read_delta, write_empty_delta};
use cs_schema::Catalog;
use cs_segment::fault::FileFault;
use cs_segment::seal::seal;
use std::alloc::{AllocError, Global};
use test_support::files::{changed, sealed};

/// A delta without items for four rows.
const EMPTY: &[u8] = b"CSDEL001\0\0\0\0\0\0\0\x04\0\0\0\x04\0\0\0\0";

/// A layer that assigns key 4 again.
const SAME_KEY: &[u8] = b"\0\0\0\x01\x01\0\0\0\0\0\0\0\x04\0\0\0\0\0\0\0\x05";

/// A layer without the fifth row.
const FIFTH_ROW: &[u8] = b"\0\0\0\x01\x02\0\0\0\x04";

/// A layer that claims more items than it has.
const HOSTILE: &[u8] = b"\xff\xff\xff\xff\x02\0\0\0\0";

fn write_cell(out: &mut Vec<u8>, cell: &ItemCell) -> Result<(), AllocError> {
    match cell.content() {
        CellContent::Int(int) => int.write(out),
        CellContent::Text(text) => {
            out.push(text.len() as u8)?;
            out.extend_from_slice(text.as_bytes())
        }
    }
}

fn write_item(out: &mut Vec<u8>, item: &Item) -> Result<(), AllocError> {
    match item {
        Item::Insert { at, key, row } => {
            out.push(1)?;
            out.extend_from_slice(&at.to_be_bytes())?;
            out.extend_from_slice(&key.to_be_bytes())?;
            for j in 0..row.len() {
                write_cell(out, &row.cell(j))?;
            }
        }
        Item::Delete { at } => {
            out.push(2)?;
            out.extend_from_slice(&at.to_be_bytes())?;
        }
        Item::Modify { at, column, value } => {
            out.push(3)?;
            out.extend_from_slice(&at.to_be_bytes())?;
            out.push(*column)?;
            write_cell(out, value)?;
        }
    }
    Ok(())
}

/// The bytes before the items of a delta of one layer, or before its layers.
fn write_head(out: &mut Vec<u8>, delta: &Delta) -> Result<(), AllocError> {
    let mark: &[u8] = if delta.version == 1 {
        b"CSDEL001"
    } else {
        b"CSDEL002"
    };
    out.extend_from_slice(mark)?;
    out.extend_from_slice(&delta.p.to_be_bytes())?;
    out.extend_from_slice(&delta.s.to_be_bytes())?;
    out.extend_from_slice(&delta.rows.to_be_bytes())?;
    out.extend_from_slice(&delta.top.to_be_bytes())
}

fn write_layers(out: &mut Vec<u8>, delta: &Delta) -> Result<(), AllocError> {
    if delta.version == 2 {
        out.extend_from_slice(&delta.layers.len().to_be_bytes()[7..])?;
    }
    for layer in &delta.layers {
        out.extend_from_slice(&layer.len().to_be_bytes()[4..])?;
        for i in 0..layer.len() {
            write_item(out, &layer.item(i))?;
        }
    }
    Ok(())
}

/// The file of a delta.
fn written(alloc: Global, delta: &Delta) -> Result<Vec<u8>, AllocError> {
    let mut out = Vec::new(alloc);
    write_head(&mut out, delta)?;
    write_layers(&mut out, delta)?;
    seal(&mut out)?;
    Ok(out)
}

/// Whether the bytes are the file of what is read from them.
fn is_written_again(alloc: Global, catalog: &Catalog, bytes: &[u8]) -> bool
    requires { 0 < length catalog.now.projections }
{
    match read_delta(alloc, catalog, 0, 0, bytes) {
        Ok(delta) => are_made(written(alloc, &delta), bytes),
        Err(_) => false,
    }
}

/// Whether the bytes are not the file of a delta.
fn is_damaged(alloc: Global, catalog: &Catalog, bytes: &[u8]) -> bool
    requires { 0 < length catalog.now.projections }
{
    matches!(
        read_delta(alloc, catalog, 0, 0, bytes),
        Err(FileFault::Damaged)
    )
}

/// Whether each proper prefix of the file, and the file with any byte changed, is damaged.
fn is_guarded(alloc: Global, catalog: &Catalog, bytes: &[u8]) -> Result<bool, AllocError>
    requires { 0 < length catalog.now.projections }
{
    for at in 0..bytes.len() {
        let other = changed(alloc, bytes, at)?;
        if !is_damaged(alloc, catalog, &bytes[..at]) || !is_damaged(alloc, catalog, &other) {
            return Ok(false);
        }
    }
    Ok(true)
}

/// Whether the body with any byte changed and a new digest is damaged or is the file of what is read from it.
fn is_one_text(alloc: Global, catalog: &Catalog, body: &[u8]) -> Result<bool, AllocError>
    requires { 0 < length catalog.now.projections }
{
    for at in 0..body.len() {
        let mut bytes = changed(alloc, body, at)?;
        seal(&mut bytes)?;
        if !is_damaged(alloc, catalog, &bytes) && !is_written_again(alloc, catalog, &bytes) {
            return Ok(false);
        }
    }
    Ok(true)
}

/// Whether the file of a delta, given without its digest, is written again unchanged, and guarded against changes.
fn is_read_exactly(alloc: Global, catalog: &Catalog, body: &[u8]) -> Result<bool, AllocError>
    requires { 0 < length catalog.now.projections }
{
    let bytes = sealed(alloc, body)?;
    Ok(
        is_written_again(alloc, catalog, &bytes)
            && is_guarded(alloc, catalog, &bytes)?
            && is_one_text(alloc, catalog, body)?,
    )
}

#[test]
fn files_are_read_exactly_with_ample_memory(rt: HostRuntime) {
    let catalog = one_column(&rt);
    let one_layer = single(rt.alloc(), LOWER).expect(&rt, "one layer");
    let two_layers = stacked(rt.alloc(), 2, &[LOWER, UPPER]).expect(&rt, "two layers");
    for body in [EMPTY, one_layer.as_slice(), two_layers.as_slice()] {
        assert!(rt;
            is_read_exactly(rt.alloc(), &catalog, body) == Ok(true),
            "{body:?}"
        );
    }
}

#[test]
fn empty_deltas_are_written_with_ample_memory(rt: HostRuntime) {
    let wanted = sealed(rt.alloc(), EMPTY).expect(&rt, "a file");
    assert!(rt; are_made(write_empty_delta(rt.alloc(), 0, 0, 4), &wanted));
}

/// The number of layers that a file claims, and its layers. No delta has such a file.
const NO_DELTAS: [(u8, &[&[u8]]); 7] = [
    (0, &[]),
    (4, &[NO_ITEMS, NO_ITEMS, NO_ITEMS, NO_ITEMS]),
    (2, &[LOWER, SAME_KEY]),
    (2, &[LOWER, FIFTH_ROW]),
    (2, &[LOWER]),
    (1, &[LOWER, UPPER]),
    (1, &[HOSTILE]),
];

/// Whether the file of these layers is damaged.
fn are_damaged(
    alloc: Global,
    catalog: &Catalog,
    count: u8,
    layers: &[&[u8]],
) -> Result<bool, AllocError>
    requires { 0 < length catalog.now.projections }
{
    let mut bytes = stacked(alloc, count, layers)?;
    seal(&mut bytes)?;
    Ok(is_damaged(alloc, catalog, &bytes))
}

#[test]
fn bytes_that_are_no_delta(rt: HostRuntime) {
    let catalog = one_column(&rt);
    for (i, (count, layers)) in NO_DELTAS.iter().enumerate() {
        let damaged = are_damaged(rt.alloc(), &catalog, *count, layers);
        assert!(rt; damaged == Ok(true), "case {i}");
    }
}

#[test]
fn bytes_after_the_digest(rt: HostRuntime) {
    let catalog = one_column(&rt);
    let mut bytes = sealed(rt.alloc(), EMPTY).expect(&rt, "a file");
    bytes.push(0).expect(&rt, "a byte more");
    assert!(rt; is_damaged(rt.alloc(), &catalog, &bytes));
}

/// Why the delta of three rows with this highest key is refused.
fn fault_at(alloc: Global, catalog: &Catalog, top: u32) -> Result<Option<FileFault>, AllocError>
    requires { 0 < length catalog.now.projections }
{
    let mut body = b"CSDEL001\0\0\0\0\0\0\0\x03".to_vec(alloc)?;
    body.extend_from_slice(&top.to_be_bytes())?;
    body.extend_from_slice(NO_ITEMS)?;
    seal(&mut body)?;
    Ok(read_delta(alloc, catalog, 0, 0, &body).err())
}

#[test]
fn highest_key_has_a_limit(rt: HostRuntime) {
    let catalog = one_column(&rt);
    for (top, fault) in [(4_194_304, None), (4_194_305, Some(FileFault::Damaged))] {
        assert!(rt; fault_at(rt.alloc(), &catalog, top) == Ok(fault), "{top}");
    }
}
