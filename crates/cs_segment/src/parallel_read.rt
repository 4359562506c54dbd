//! Reading a segment's file in several threads: one verifies the digest, the others decode a column each.
ghost use Rattle.std.specs.Prelude.{◌<◌, ◌≤◌, length};
ghost use Rattle.cs_segment.specs.SegmentFile.{sealed};
ghost use Rattle.cs_segment.specs.SegmentData.{ReadsSegment};
ghost use Rattle.cs_segment.specs.SegmentReader.{IsReadAt, AreFirstRead};
ghost use Rattle.cs_segment.specs.Bodies.{IsSealed};

use crate::fault::FileFault;
use crate::reader::SegmentReader;
use crate::seal::{DIGEST, is_sealed};
use crate::segment::{Segment, read_segment, read_text};
use cs_schema::{Catalog, Cells};
use std::alloc::Global;
use std::thread::{Threads, join, join_mut};

/// The smallest file, in bytes, for which threads are started.
const WORTH_THREADS: usize = 65_536;

/// The cells of the first `count` columns, each decoded in a thread.
fn read_first<R: Threads>(
    rt: &R,
    reader: &SegmentReader<'_>,
    count: usize,
) -> Result<Vec<Cells>, FileFault>
    requires { count ≤ length reader.now.bodies.items }
    ensures { AreFirstRead reader.now count result }
{
    if count < 2 {
        return reader.columns(count);
    }
    let last = count - 1;
    // `join` ensures nothing about closures that move a struct of references, so these borrow it
    let (cells, before) = join_mut(
        rt,
        &mut || -> Result<Cells, FileFault>
            requires { last < length reader.now.bodies.items }
            ensures { IsReadAt reader.entry.now last result }
        { reader.column(last) },
        &mut || -> Result<Vec<Cells>, FileFault>
            requires { last ≤ length reader.now.bodies.items }
            ensures { AreFirstRead reader.entry.now last result }
        { read_first(rt, reader, last) },
    );
    let mut columns = before?;
    columns.push(cells?)?;
    Ok(columns)
}

/// Reads the file of segment `s` of projection `p` from its bytes without the digest, which the caller verifies. 64 KiB
/// or more are read in several threads. `Damaged` if the bytes with their digest are not a file of this segment.
pub fn par_read_text<R: Threads>(
    rt: &R,
    alloc: Global,
    catalog: &Catalog,
    p: u16,
    s: u16,
    text: &[u8],
) -> Result<Segment, FileFault>
    requires { p < length catalog.now.projections }
    ensures { ReadsSegment catalog.now p s (sealed text.now) result }
{
    if text.len() < WORTH_THREADS {
        return read_text(alloc, catalog, p, s, text);
    }
    let reader = SegmentReader::open(alloc, catalog, p, s, text)?;
    let columns = read_first(rt, &reader, reader.bodies.len())?;
    Ok(Segment {
        p,
        s,
        rows: reader.rows,
        columns,
    })
}

/// Reads the file of segment `s` of projection `p`. One of 64 KiB or more is read in several threads. `Damaged` if the
/// bytes are not a file of this segment.
pub fn par_read_segment<R: Threads>(
    rt: &R,
    alloc: Global,
    catalog: &Catalog,
    p: u16,
    s: u16,
    bytes: &[u8],
) -> Result<Segment, FileFault>
    requires { p < length catalog.now.projections }
    ensures { ReadsSegment catalog.now p s bytes.now result }
{
    if bytes.len() < WORTH_THREADS {
        return read_segment(alloc, catalog, p, s, bytes);
    }
    let text = &bytes[..bytes.len() - DIGEST];
    let (whole, read) = join(
        rt,
        || -> bool
            ensures { IsSealed bytes.entry.now result }
        { is_sealed(bytes) },
        || -> Result<Segment, FileFault>
            requires { p < length catalog.now.projections }
            ensures { ReadsSegment catalog.entry.now p s (sealed text.entry.now) result }
        { par_read_text(rt, alloc, catalog, p, s, text) },
    );
    if whole { read } else { Err(FileFault::Damaged) }
}
