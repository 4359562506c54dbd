//! Files of a store, written by hand. A number that does not fit its field becomes the largest one, so that the file is
//! damaged.
use crate::columns::{Column, push_columns, push_number};
use cs_schema::Code;
use cs_segment::seal::seal;
use std::alloc::{AllocError, Global};

/// The contents of a delta's file.
#[derive(Clone, Copy)]
pub struct Delta<'a> {
    /// 1, or 2 for layers.
    pub version: u8,
    pub rows: u32,
    /// The highest key.
    pub top: u32,
    /// Everything after the highest key: the number of items or layers, and these.
    pub items: &'a [u8],
}

/// The number of rows of a segment of these columns.
pub fn rows_of(columns: &[Column]) -> usize {
    match columns {
        [first, ..] => first.len(),
        [] => 0,
    }
}

/// The beginning of a file: this mark and these numbers of two bytes.
fn begun(alloc: Global, mark: &[u8], numbers: &[u16]) -> Result<Vec<u8>, AllocError> {
    let mut out = mark.to_vec(alloc)?;
    for number in numbers {
        out.extend_from_slice(&number.to_be_bytes())?;
    }
    Ok(out)
}

/// The file of a segment whose columns have these encodings.
pub fn segment_file(
    alloc: Global,
    codes: &[Code],
    p: u16,
    s: u16,
    columns: &[Column],
) -> Result<Vec<u8>, AllocError> {
    let mut out = begun(alloc, b"CSSEG001", &[p, s])?;
    push_number(&mut out, rows_of(columns))?;
    let width = u16::try_from(columns.len()).unwrap_or(u16::MAX);
    out.extend_from_slice(&width.to_be_bytes())?;
    push_columns(&mut out, alloc, codes, columns)?;
    seal(&mut out)?;
    Ok(out)
}

/// The file of a delta.
pub fn delta_file(alloc: Global, p: u16, s: u16, delta: Delta) -> Result<Vec<u8>, AllocError> {
    let mark: &[u8] = if delta.version == 2 {
        b"CSDEL002"
    } else {
        b"CSDEL001"
    };
    let mut out = begun(alloc, mark, &[p, s])?;
    out.extend_from_slice(&delta.rows.to_be_bytes())?;
    out.extend_from_slice(&delta.top.to_be_bytes())?;
    out.extend_from_slice(delta.items)?;
    seal(&mut out)?;
    Ok(out)
}

/// The file of a delta that deletes some rows of a segment with this many.
pub fn deleting_file(
    alloc: Global,
    p: u16,
    s: u16,
    rows: usize,
    deleted: &[u32],
) -> Result<Vec<u8>, AllocError> {
    let mut items = Vec::new(alloc);
    push_number(&mut items, deleted.len())?;
    for position in deleted {
        items.push(2)?;
        items.extend_from_slice(&position.to_be_bytes())?;
    }
    let rows = u32::try_from(rows).unwrap_or(u32::MAX);
    let delta = Delta {
        version: 1,
        rows,
        top: rows,
        items: items.as_slice(),
    };
    delta_file(alloc, p, s, delta)
}

/// The file of a join index.
pub fn join_file(
    alloc: Global,
    p: u16,
    s: u16,
    q: u16,
    entries: &[(u16, u32)],
) -> Result<Vec<u8>, AllocError> {
    let mut out = begun(alloc, b"CSJIX001", &[p, s, q])?;
    push_number(&mut out, entries.len())?;
    for (segment, key) in entries {
        out.extend_from_slice(&segment.to_be_bytes())?;
        out.extend_from_slice(&key.to_be_bytes())?;
    }
    seal(&mut out)?;
    Ok(out)
}

/// The bytes followed by their digest.
pub fn sealed(alloc: Global, body: &[u8]) -> Result<Vec<u8>, AllocError> {
    let mut bytes = body.to_vec(alloc)?;
    seal(&mut bytes)?;
    Ok(bytes)
}

/// The bytes with one of them changed.
pub fn changed(alloc: Global, bytes: &[u8], at: usize) -> Result<Vec<u8>, AllocError> {
    let mut bytes = bytes.to_vec(alloc)?;
    if at < bytes.len() {
        bytes[at] ^= 1;
    }
    Ok(bytes)
}
