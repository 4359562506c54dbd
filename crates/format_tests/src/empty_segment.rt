//! A segment without rows, with a column in each encoding.
use crate::deltas::images::image_of;
use cs_catalog::read_catalog;
use cs_schema::Cells;
use cs_segment::segment::read_segment;
use test_support::catalogs::FOUR_CODES;
use test_support::files::sealed;

/// The segment, without its digest.
const SEGMENT: &[u8] = b"CSSEG001\0\0\0\0\0\0\0\0\0\x04\
\x03\x01\0\0\0\0\x01\x01\0\0\0\0\x02\x02\0\0\0\0\x04\x02\0\0\0\0";

/// The delta without items for no rows, without the digest.
const DELTA: &[u8] = b"CSDEL001\0\0\0\0\0\0\0\0\0\0\0\0\0\0\0\0";

/// Whether there are four columns, each of no cells.
fn are_four_empty_columns(columns: &[Cells]) -> bool {
    columns.len() == 4 && columns.iter().all(|column| column.is_empty())
}

#[test]
fn empty_segment_has_four_empty_columns(rt: HostRuntime) {
    let catalog = read_catalog(rt.alloc(), FOUR_CODES.as_bytes()).expect(&rt, "a catalog");
    assert!(rt; 0 < catalog.projection_count());
    let bytes = sealed(rt.alloc(), SEGMENT).expect(&rt, "a file");
    assert_eq!(rt; bytes.len(), 74);
    let segment = read_segment(rt.alloc(), &catalog, 0, 0, &bytes).expect(&rt, "a segment");
    assert!(rt; are_four_empty_columns(&segment.columns));
}

#[test]
fn empty_segment_has_no_key(rt: HostRuntime) {
    let catalog = read_catalog(rt.alloc(), FOUR_CODES.as_bytes()).expect(&rt, "a catalog");
    assert!(rt; 0 < catalog.projection_count());
    let image = image_of(rt.alloc(), &catalog, SEGMENT, DELTA).expect(&rt, "an image");
    assert!(rt; image.top() == 0 && image.rows() == 0);
}
