//! Reading a segment's file.
ghost use Rattle.std.specs.Prelude.{◌<◌, length};
ghost use Rattle.cs_segment.specs.SegmentFile.{sealed};
ghost use Rattle.cs_segment.specs.SegmentData.{ReadsSegment};

use crate::fault::FileFault;
use crate::reader::SegmentReader;
use crate::seal::unseal;
use cs_schema::{Catalog, Cells};
use std::alloc::Global;
use std::marker::Model;

/// The base rows of segment `s` of projection `p`: `rows` cells in each column, the columns in the projection's order.
#[derive(Drop)]
pub struct Segment {
    pub p: u16,
    pub s: u16,
    pub rows: u32,
    pub columns: Vec<Cells>,
}

impl Model for Segment {
    ghost use Rattle.cs_segment.specs.SegmentData.{SegmentData};

    ghost Value = { SegmentData };

    ghost use Rattle.cs_segment.specs.SegmentView.{segment_data};

    ghost view = { segment_data };
}

/// Reads the file of segment `s` of projection `p` from its bytes without the digest, which the caller verifies.
/// `Damaged` if the bytes with their digest are not a file of this segment.
pub fn read_text(
    alloc: Global,
    catalog: &Catalog,
    p: u16,
    s: u16,
    text: &[u8],
) -> Result<Segment, FileFault>
    requires { p < length catalog.now.projections }
    ensures { ReadsSegment catalog.now p s (sealed text.now) result }
{
    let reader = SegmentReader::open(alloc, catalog, p, s, text)?;
    let columns = reader.columns(reader.bodies.len())?;
    Ok(Segment {
        p,
        s,
        rows: reader.rows,
        columns,
    })
}

/// Reads the file of segment `s` of projection `p`. `Damaged` if the bytes are not a file of this segment.
pub fn read_segment(
    alloc: Global,
    catalog: &Catalog,
    p: u16,
    s: u16,
    bytes: &[u8],
) -> Result<Segment, FileFault>
    requires { p < length catalog.now.projections }
    ensures { ReadsSegment catalog.now p s bytes.now result }
{
    match unseal(bytes) {
        Some(text) => read_text(alloc, catalog, p, s, text),
        None => Err(FileFault::Damaged),
    }
}
