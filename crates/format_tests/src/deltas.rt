//! Deltas: their files, and the images that they make.
mod files;
pub mod images;

ghost use Rattle.std.specs.Prelude.{◌<◌, length};

use cs_catalog::read_catalog;
use cs_schema::Catalog;
use std::alloc::{AllocError, AllocGlobal, Global};
use std::process::Abort;
use test_support::catalogs::ONE_COLUMN;

/// A layer: 5 with key 4 before the first row, no second row, 40 with key 5 at the end.
pub const LOWER: &[u8] = b"\0\0\0\x03\x01\0\0\0\0\0\0\0\x04\0\0\0\0\0\0\0\x05\
\x02\0\0\0\x01\x01\0\0\0\x03\0\0\0\x05\0\0\0\0\0\0\0\x28";

/// A layer on the four rows that the lower one leaves: no first row, 31 in the third.
pub const UPPER: &[u8] = b"\0\0\0\x02\x02\0\0\0\0\x03\0\0\0\x02\0\0\0\0\0\0\0\0\x1f";

pub const NO_ITEMS: &[u8] = b"\0\0\0\0";

/// The changes of three rows in one layer, in version 1.
pub fn single(alloc: Global, layer: &[u8]) -> Result<Vec<u8>, AllocError> {
    let mut bytes = b"CSDEL001\0\0\0\0\0\0\0\x03\0\0\0\x05".to_vec(alloc)?;
    bytes.extend_from_slice(layer)?;
    Ok(bytes)
}

/// The changes of three rows in layers, in version 2.
pub fn stacked(alloc: Global, count: u8, layers: &[&[u8]]) -> Result<Vec<u8>, AllocError> {
    let mut bytes = b"CSDEL002\0\0\0\0\0\0\0\x03\0\0\0\x05".to_vec(alloc)?;
    bytes.push(count)?;
    for layer in layers {
        bytes.extend_from_slice(layer)?;
    }
    Ok(bytes)
}

pub fn one_column(rt: &(impl Abort + AllocGlobal)) -> Catalog
    ensures { 0 < length result.projections }
{
    let catalog = read_catalog(rt.alloc(), ONE_COLUMN.as_bytes()).expect(rt, "a catalog");
    assert!(rt; 0 < catalog.projection_count());
    catalog
}
