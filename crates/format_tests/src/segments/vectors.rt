//! Vectors: files that are read and written again, and each of them with any byte changed.
ghost use Rattle.std.specs.Prelude.{◌≡◌, ◌<◌, length, IfOk};
ghost use Rattle.cs_segment.specs.SegmentFile.{IsBase};
ghost use Rattle.cs_segment.specs.SegmentData.{kinds_at};
ghost use Rattle.cs_segment.specs.SegmentPieces.{ArePiecesOf};

use super::{PLAIN, is_damaged};
use cs_catalog::read_catalog;
use cs_piece::{Piece, encode_piece};
use cs_schema::Catalog;
use cs_schema::samples::{CITIES, SPLIT_COLUMNS, THREE_PROJECTIONS, TWO_ORDERS};
use cs_segment::seal::seal;
use cs_segment::{FileFault, Segment, read_segment, write_segment};
use std::alloc::{AllocError, Global};
use test_support::catalogs::FOUR_CODES;
use test_support::files::{changed, sealed};

/// No rows, under each encoding.
const EMPTY: &[u8; 42] = b"CSSEG001\0\0\0\0\0\0\0\0\0\x04\
\x03\x01\0\0\0\0\x01\x01\0\0\0\0\x02\x02\0\0\0\0\x04\x02\0\0\0\0";

/// Three rows under each encoding: 1, 2, 3 as differences, 5, 5, 6 as runs, x, x, y as bitmaps, and an empty text, ab
/// and c, plain.
const FULL: &[u8; 122] = b"CSSEG001\0\0\0\0\0\0\0\x03\0\x04\
\x03\x01\0\0\0\x0e\0\0\0\x01\0\0\0\0\0\0\0\x01\x01\x01\
\x01\x01\0\0\0\x20\0\0\0\0\0\0\0\x05\0\0\0\x01\0\0\0\x02\0\0\0\0\0\0\0\x06\0\0\0\x03\0\0\0\x01\
\x02\x02\0\0\0\x1c\x01x\0\0\0\x02\0\0\0\0\0\0\0\x02\x01y\0\0\0\x02\0\0\0\x02\0\0\0\x01\
\x04\x02\0\0\0\x06\0\x02ab\x01c";

/// Runs of texts.
const RUNS: &[u8; 57] = b"CSSEG001\0\x01\0\0\0\0\0\x02\0\x02\
\x01\x02\0\0\0\x0b\x02la\0\0\0\x01\0\0\0\x02\
\x04\x01\0\0\0\x10\0\0\0\0\0\0\0\x05\0\0\0\0\0\0\0\x03";

/// Differences, in the second segment.
const DIFFERENCES: &[u8; 59] = b"CSSEG001\0\0\0\x01\0\0\0\x02\0\x02\
\x03\x01\0\0\0\x0d\0\0\0\x01\0\0\0\0\0\0\0\x03\x01\
\x04\x01\0\0\0\x10\0\0\0\0\0\0\0\x14\0\0\0\0\0\0\0\x0a";

/// Runs of ints.
const INT_RUNS: &[u8; 62] = b"CSSEG001\0\x01\0\0\0\0\0\x02\0\x02\
\x04\x01\0\0\0\x10\0\0\0\0\0\0\0\x02\0\0\0\0\0\0\0\x04\
\x01\x01\0\0\0\x10\0\0\0\0\0\0\0\x0a\0\0\0\x01\0\0\0\x02";

/// Three columns, in the order of the last.
const THREE_COLUMNS: &[u8; 81] = b"CSSEG001\0\x02\0\0\0\0\0\x02\0\x03\
\x04\x01\0\0\0\x10\0\0\0\0\0\0\0\x02\0\0\0\0\0\0\0\x01\
\x04\x01\0\0\0\x10\0\0\0\0\0\0\0\x06\0\0\0\0\0\0\0\x05\
\x03\x01\0\0\0\x0d\0\0\0\x01\0\0\0\0\0\0\0\x08\x01";

/// A file that some catalog has at a projection and a segment, without its digest.
struct Vector {
    catalog: &'static str,
    p: u16,
    s: u16,
    body: &'static [u8],
}

const VECTORS: [Vector; 7] = [
    Vector {
        catalog: TWO_ORDERS,
        p: 0,
        s: 0,
        body: PLAIN,
    },
    Vector {
        catalog: FOUR_CODES,
        p: 0,
        s: 0,
        body: EMPTY,
    },
    Vector {
        catalog: FOUR_CODES,
        p: 0,
        s: 0,
        body: FULL,
    },
    Vector {
        catalog: CITIES,
        p: 1,
        s: 0,
        body: RUNS,
    },
    Vector {
        catalog: THREE_PROJECTIONS,
        p: 0,
        s: 1,
        body: DIFFERENCES,
    },
    Vector {
        catalog: THREE_PROJECTIONS,
        p: 1,
        s: 0,
        body: INT_RUNS,
    },
    Vector {
        catalog: SPLIT_COLUMNS,
        p: 2,
        s: 0,
        body: THREE_COLUMNS,
    },
];

/// A part for each column.
fn pieces_of(
    alloc: Global,
    catalog: &Catalog,
    p: u16,
    segment: &Segment,
) -> Result<Vec<Piece>, AllocError>
    requires projection { p < length catalog.now.projections }
    requires base { IsBase catalog.now p segment.now.base }
    requires kinds { segment.now.kinds ≡ kinds_at catalog.now p }
    ensures { IfOk result (λ pieces. ArePiecesOf catalog.now p segment.now.base.rows pieces.items segment.now.base) }
{
    let mut pieces = Vec::new(alloc);
    for (j, column) in segment.columns.iter().enumerate() {
        pieces.push(encode_piece(alloc, catalog.code(p, j), column)?)?;
    }
    Ok(pieces)
}

/// A file that is read and written again: the same bytes.
fn again(
    alloc: Global,
    catalog: &Catalog,
    p: u16,
    s: u16,
    bytes: &[u8],
) -> Result<Vec<u8>, FileFault>
    requires { p < length catalog.now.projections }
    ensures { IfOk result (λ out. out.items ≡ bytes.now) }
{
    let segment = read_segment(alloc, catalog, p, s, bytes)?;
    let pieces = pieces_of(alloc, catalog, p, &segment)?;
    Ok(write_segment(alloc, catalog, p, s, segment.rows, &pieces)?)
}

/// Whether the bytes are written again unchanged, if they are a segment's file.
fn is_written_again(alloc: Global, catalog: &Catalog, p: u16, s: u16, bytes: &[u8]) -> bool
    requires { p < length catalog.now.projections }
{
    match again(alloc, catalog, p, s, bytes) {
        Ok(written) => written.as_slice() == bytes,
        Err(_) => false,
    }
}

/// Whether each proper prefix of the file, and the file with any byte changed, is damaged.
fn is_guarded(
    alloc: Global,
    catalog: &Catalog,
    p: u16,
    s: u16,
    bytes: &[u8],
) -> Result<bool, AllocError>
    requires { p < length catalog.now.projections }
{
    for at in 0..bytes.len() {
        let other = changed(alloc, bytes, at)?;
        if !is_damaged(alloc, catalog, p, s, &bytes[..at])
            || !is_damaged(alloc, catalog, p, s, &other)
        {
            return Ok(false);
        }
    }
    Ok(true)
}

/// Whether the body with any byte changed and a new digest is damaged or is written again unchanged.
fn is_one_text(
    alloc: Global,
    catalog: &Catalog,
    p: u16,
    s: u16,
    body: &[u8],
) -> Result<bool, AllocError>
    requires { p < length catalog.now.projections }
{
    for at in 0..body.len() {
        let mut bytes = changed(alloc, body, at)?;
        seal(&mut bytes)?;
        if !is_damaged(alloc, catalog, p, s, &bytes)
            && !is_written_again(alloc, catalog, p, s, &bytes)
        {
            return Ok(false);
        }
    }
    Ok(true)
}

/// Whether a vector is written again unchanged, and no other bytes near it are read as it is.
fn is_read_exactly(alloc: Global, catalog: &Catalog, vector: &Vector) -> Result<bool, AllocError>
    requires { vector.now.p < length catalog.now.projections }
{
    let (p, s) = (vector.p, vector.s);
    let bytes = sealed(alloc, vector.body)?;
    Ok(
        is_written_again(alloc, catalog, p, s, &bytes)
            && is_guarded(alloc, catalog, p, s, &bytes)?
            && is_one_text(alloc, catalog, p, s, vector.body)?,
    )
}

#[test]
fn vectors_are_read_and_written_with_ample_memory(rt: HostRuntime) {
    for vector in &VECTORS {
        let catalog = read_catalog(rt.alloc(), vector.catalog.as_bytes()).expect(&rt, "a catalog");
        assert!(rt; vector.p < catalog.projection_count());
        assert!(rt; is_read_exactly(rt.alloc(), &catalog, vector) == Ok(true));
    }
}
