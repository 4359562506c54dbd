//! A segment that is written column by column.
ghost use Rattle.std.specs.Prelude.{◌<◌, ◌≤◌, length, IfOk};
ghost use Rattle.cs_segment.specs.SegmentWriter.{joined};

use super::{PLAIN, two_orders};
use cs_schema::{Catalog, Code, Kind};
use cs_segment::SegmentWriter;
use std::alloc::{AllocError, AllocGlobal, Global};
use std::thread::Threads;
use test_support::files::sealed;

/// The texts of both columns of the plain rows.
const FIRST: &[u8; 32] =
    b"\0\0\0\0\0\0\0\x01\0\0\0\0\0\0\0\x02\0\0\0\0\0\0\0\x03\0\0\0\0\0\0\0\x04";

const SECOND: &[u8; 32] =
    b"\0\0\0\0\0\0\0\x1e\0\0\0\0\0\0\0\x0a\0\0\0\0\0\0\0\x14\0\0\0\0\0\0\0\x0a";

/// The text of a column in one part.
fn piece_of(alloc: Global, text: &[u8; 32]) -> Result<Vec<Vec<u8>>, AllocError>
    ensures { IfOk result (λ pieces. length (joined pieces.items) ≤ 32) }
{
    let mut pieces = Vec::new(alloc);
    pieces.push(text.to_vec(alloc)?)?;
    Ok(pieces)
}

/// Puts a column of plain ints into a file, deferred or not.
fn put(
    rt: &(impl Threads + Sync + AllocGlobal),
    file: &mut SegmentWriter,
    text: &[u8; 32],
    waits: bool,
) -> Result<(), AllocError> {
    let pieces = piece_of(rt.alloc(), text)?;
    if waits {
        return file.put_pieces(Code::Plain, Kind::Int, pieces);
    }
    file.push_pieces(rt, Code::Plain, Kind::Int, pieces)
}

/// The file of the plain rows. The first column is deferred or not, and so is the second.
fn grown(
    rt: &(impl Threads + Sync + AllocGlobal),
    catalog: &Catalog,
    waits: [bool; 2],
) -> Result<Vec<u8>, AllocError>
    requires { 0 < length catalog.now.projections }
{
    let mut file = SegmentWriter::begin(rt.alloc(), catalog, 0, 0, 4)?;
    put(rt, &mut file, FIRST, waits[0])?;
    put(rt, &mut file, SECOND, waits[1])?;
    file.finish()
}

#[test]
fn columns_wait_or_are_taken_at_once_with_ample_memory(rt: HostRuntime) {
    let catalog = two_orders(&rt);
    let wanted = sealed(rt.alloc(), PLAIN).expect(&rt, "a file");
    for waits in [[false, false], [false, true], [true, false], [true, true]] {
        let made = grown(&rt, &catalog, waits).expect(&rt, "a file that grew");
        assert!(rt; made.as_slice() == wanted.as_slice(), "{waits:?}");
    }
}
