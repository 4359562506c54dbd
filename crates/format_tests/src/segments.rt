//! Files of segments: vectors, each of their bytes changed, and long files that several threads read.
mod hostile;
mod long_files;
mod segment_writer;
mod vectors;

ghost use Rattle.std.specs.Prelude.{◌≡◌, ◌<◌, length};

use cs_catalog::read_catalog;
use cs_schema::samples::TWO_ORDERS;
use cs_schema::{Catalog, Value};
use cs_segment::seal::unseal;
use cs_segment::{FileFault, read_segment};
use std::alloc::{AllocGlobal, Global};
use std::process::Abort;
use test_support::files::sealed;

/// The rows (1,30), (2,10), (3,20), (4,10), plain.
pub const PLAIN: &[u8; 94] = b"CSSEG001\0\0\0\0\0\0\0\x04\0\x02\
\x04\x01\0\0\0\x20\0\0\0\0\0\0\0\x01\0\0\0\0\0\0\0\x02\0\0\0\0\0\0\0\x03\0\0\0\0\0\0\0\x04\
\x04\x01\0\0\0\x20\0\0\0\0\0\0\0\x1e\0\0\0\0\0\0\0\x0a\0\0\0\0\0\0\0\x14\0\0\0\0\0\0\0\x0a";

/// The catalog of two orders, whose first segment has the plain rows.
pub fn two_orders(rt: &(impl Abort + AllocGlobal)) -> Catalog
    ensures { length result.projections ≡ 2 }
{
    let catalog = read_catalog(rt.alloc(), TWO_ORDERS.as_bytes()).expect(rt, "a catalog");
    assert!(rt; catalog.projection_count() == 2);
    catalog
}

/// Whether the bytes are not the file of a segment.
pub fn is_damaged(alloc: Global, catalog: &Catalog, p: u16, s: u16, bytes: &[u8]) -> bool
    requires { p < length catalog.now.projections }
{
    let segment = read_segment(alloc, catalog, p, s, bytes);
    matches!(segment, Err(FileFault::Damaged))
}

#[test]
fn rows_are_read(rt: HostRuntime) {
    let catalog = two_orders(&rt);
    let bytes = sealed(rt.alloc(), PLAIN).expect(&rt, "a file");
    assert_eq!(rt; bytes.len(), 126);
    let segment = read_segment(rt.alloc(), &catalog, 0, 0, &bytes).expect(&rt, "a segment");
    assert!(rt; segment.rows == 4 && segment.columns.len() == 2);
    assert!(rt; segment.columns[1].len() == 4 && segment.columns[1].cell(0) == Value::Int(30));
    for (p, s) in [(1, 0), (0, 1)] {
        assert!(rt; is_damaged(rt.alloc(), &catalog, p, s, &bytes), "p{p}.s{s}");
    }
}

/// The text abc, and its digest by SHA-256.
const SEALED_ABC: [u8; 35] = [
    b'a', b'b', b'c', 0xba, 0x78, 0x16, 0xbf, 0x8f, 0x01, 0xcf, 0xea, 0x41, 0x41, 0x40, 0xde, 0x5d,
    0xae, 0x22, 0x23, 0xb0, 0x03, 0x61, 0xa3, 0x96, 0x17, 0x7a, 0x9c, 0xb4, 0x10, 0xff, 0x61, 0xf2,
    0x00, 0x15, 0xad,
];

#[test]
fn seals_by_the_published_digest(rt: HostRuntime) {
    let bytes = sealed(rt.alloc(), b"abc").expect(&rt, "a file");
    assert!(rt; bytes.as_slice() == SEALED_ABC.as_slice());
    assert!(rt; unseal(&bytes) == Some(b"abc".as_slice()));
    assert!(rt; unseal(b"abc").is_none());
}
