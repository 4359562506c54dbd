//! Images of a segment and its delta.
ghost use Rattle.std.specs.Prelude.{◌<◌, length, IfOk};

use super::{LOWER, NO_ITEMS, UPPER, one_column, single, stacked};
use cs_delta::{Image, merge, read_delta};
use cs_schema::{Catalog, Cells};
use cs_segment::fault::FileFault;
use cs_segment::segment::read_segment;
use std::alloc::Global;
use test_support::files::sealed;

/// The segment 10, 20, 30.
const THREE_ROWS: &[u8] = b"CSSEG001\0\0\0\0\0\0\0\x03\0\x01\x04\x01\0\0\0\x18\
\0\0\0\0\0\0\0\x0a\0\0\0\0\0\0\0\x14\0\0\0\0\0\0\0\x1e";

/// The segment 10, 20.
const TWO_ROWS: &[u8] = b"CSSEG001\0\0\0\0\0\0\0\x02\0\x01\x04\x01\0\0\0\x10\
\0\0\0\0\0\0\0\x0a\0\0\0\0\0\0\0\x14";

/// The image of a segment and a delta in these files.
fn image_of_files(
    alloc: Global,
    catalog: &Catalog,
    segment: &[u8],
    delta: &[u8],
) -> Result<Image, FileFault>
    requires { 0 < length catalog.now.projections }
    ensures { IfOk result (λ image. 0 < length image.kinds) }
{
    let _width = catalog.width(0);
    let segment = read_segment(alloc, catalog, 0, 0, segment)?;
    let delta = read_delta(alloc, catalog, 0, 0, delta)?;
    merge(alloc, &segment, &delta)
}

/// The image of a segment and a delta in files that are given without their digests.
pub fn image_of(
    alloc: Global,
    catalog: &Catalog,
    segment: &[u8],
    delta: &[u8],
) -> Result<Image, FileFault>
    requires { 0 < length catalog.now.projections }
    ensures { IfOk result (λ image. 0 < length image.kinds) }
{
    let segment = sealed(alloc, segment)?;
    let delta = sealed(alloc, delta)?;
    image_of_files(alloc, catalog, &segment, &delta)
}

/// Whether an image has these ints in its first column, and these keys.
fn shows(image: &Image, ints: &[i64], keys: &[u32]) -> bool
    requires { 0 < length image.now.kinds }
{
    if image.rows() as usize != keys.len() {
        return false;
    }
    for (i, key) in (0u32..).zip(keys.iter()) {
        if i >= image.rows() || image.key_at(i) != *key {
            return false;
        }
    }
    match image.column(0) {
        Cells::Ints(cells) => cells.as_slice() == ints,
        Cells::Texts(_) => false,
    }
}

/// Layers in version 2, and the ints and keys of their image over 10, 20, 30, if they are those of a delta.
struct Layers {
    count: u8,
    layers: &'static [&'static [u8]],
    ints: &'static [i64],
    keys: &'static [u32],
}

const MERGED: [Layers; 4] = [
    Layers {
        count: 1,
        layers: &[LOWER],
        ints: &[5, 10, 30, 40],
        keys: &[4, 1, 3, 5],
    },
    Layers {
        count: 2,
        layers: &[LOWER, UPPER],
        ints: &[10, 31, 40],
        keys: &[1, 3, 5],
    },
    Layers {
        count: 3,
        layers: &[NO_ITEMS, LOWER, UPPER],
        ints: &[10, 31, 40],
        keys: &[1, 3, 5],
    },
    Layers {
        count: 3,
        layers: &[LOWER, NO_ITEMS, UPPER],
        ints: &[10, 31, 40],
        keys: &[1, 3, 5],
    },
];

/// Whether the image of the three rows and these layers is as expected.
fn is_merged(alloc: Global, catalog: &Catalog, wanted: &Layers) -> Result<bool, FileFault>
    requires { 0 < length catalog.now.projections }
{
    let body = stacked(alloc, wanted.count, wanted.layers)?;
    let image = image_of(alloc, catalog, THREE_ROWS, &body)?;
    Ok(shows(&image, wanted.ints, wanted.keys) && image.top() == 5)
}

#[test]
fn layers_are_merged_from_the_lowest_with_ample_memory(rt: HostRuntime) {
    let catalog = one_column(&rt);
    for (i, wanted) in MERGED.iter().enumerate() {
        assert!(rt;
            is_merged(rt.alloc(), &catalog, wanted) == Ok(true),
            "case {i}"
        );
    }
}

#[test]
fn changes_are_merged_with_ample_memory(rt: HostRuntime) {
    let catalog = one_column(&rt);
    let delta = single(rt.alloc(), LOWER).expect(&rt, "a delta");
    let image = image_of(rt.alloc(), &catalog, THREE_ROWS, &delta).expect(&rt, "an image");
    assert!(rt; shows(&image, &[5, 10, 30, 40], &[4, 1, 3, 5]) && image.top() == 5);
    for (key, position) in [(5, Some(3)), (0, None), (2, None), (6, None)] {
        assert!(rt; image.position_of(key) == position, "key {key}");
    }
}

#[test]
fn changes_of_another_number_of_rows(rt: HostRuntime) {
    let catalog = one_column(&rt);
    let delta = single(rt.alloc(), LOWER).expect(&rt, "a delta");
    let image = image_of(rt.alloc(), &catalog, TWO_ROWS, &delta);
    assert!(rt; matches!(image, Err(FileFault::Damaged)));
}
