//! Finding and decoding the columns of a segment.
ghost use Rattle.std.specs.Prelude.{◌≡◌, ℕ, ◌<◌, ◌≤◌, List, length, IfOk, IfSome, IfNone};
ghost use Rattle.cs_schema.specs.CatalogData.{projection};
ghost use Rattle.cs_segment.specs.Parts.{BeginsWithHead};
ghost use Rattle.cs_segment.specs.SegmentFile.{sealed};
ghost use Rattle.cs_segment.specs.SegmentData.{IsNoSegment};

use crate::bodies::{find_bodies, read_body};
use crate::bytes::{after, number, short};
use crate::fault::FileFault;
use cs_schema::limits::SEGMENT_ROWS;
use cs_schema::{Catalog, Cells};
use std::alloc::Global;

/// The number of rows that the header of a segment's file gives, and the bytes after the header. `None` if the bytes do
/// not start with a header of this segment with `width` columns.
fn read_head(bytes: &[u8], p: u16, s: u16, width: usize) -> Option<(u32, &[u8])>
    requires { width ≤ 32 }
    ensures found { IfSome result (λ r. BeginsWithHead p s width bytes.now r.0 r.1.now) }
    ensures none { IfNone result ((rows : ℕ) (rest : List ℕ) → BeginsWithHead p s width bytes.now rows rest → ⊥) }
{
    let named = after(bytes, b"CSSEG001")?;
    let placed = after(named, &p.to_be_bytes())?;
    let counted = after(placed, &s.to_be_bytes())?;
    let (rows, sized) = number(counted)?;
    let (columns, rest) = short(sized)?;
    if rows > SEGMENT_ROWS || columns as usize != width {
        return None;
    }
    Some((rows, rest))
}

/// Decodes the columns of one segment. The projection gives the encoding and the kind of each column, the file's header
/// the number of cells.
#[derive(Drop)]
pub(crate) struct SegmentReader<'a> {
    alloc: Global,
    catalog: &'a Catalog,
    p: u16,
    pub(crate) rows: u32,
    /// The body of each column, in the projection's order.
    pub(crate) bodies: Vec<&'a [u8]>,
    ghost inside: { p < length catalog.now.projections },
    ghost few: { rows ≤ 1048576 },
    ghost width: { length bodies.items ≡ length (projection catalog.now p).columns },
}

impl<'a> SegmentReader<'a> {
    ghost use Rattle.cs_segment.specs.SegmentReader.{IsReaderOf, IsReadAt, AreFirstRead};

    /// Finds the columns in the file of segment `s` of projection `p`, which is given without its digest.
    pub(crate) fn open(
        alloc: Global,
        catalog: &'a Catalog,
        p: u16,
        s: u16,
        text: &'a [u8],
    ) -> Result<SegmentReader<'a>, FileFault>
        requires { p < length catalog.now.projections }
        ensures found { IfOk result (IsReaderOf catalog.now p s text.now) }
        ensures refused { result ≡ Err FileFault.Damaged → IsNoSegment catalog.now p s (sealed text.now) }
    {
        let Some((rows, parts)) = read_head(text, p, s, catalog.width(p)) else {
            return Err(FileFault::Damaged);
        };
        let bodies = find_bodies(alloc, catalog, p, parts)?;
        Ok(SegmentReader {
            alloc,
            catalog,
            p,
            rows,
            bodies,
        })
    }

    /// The cells of the `j`-th column.
    pub(crate) fn column(&self, j: usize) -> Result<Cells, FileFault>
        requires { j < length self.now.bodies.items }
        ensures { IsReadAt self.now j result }
    {
        read_body(
            self.alloc,
            self.catalog,
            self.p,
            j,
            self.bodies[j],
            self.rows,
        )
    }

    /// The cells of the first `count` columns.
    pub(crate) fn columns(&self, count: usize) -> Result<Vec<Cells>, FileFault>
        requires { count ≤ length self.now.bodies.items }
        ensures { AreFirstRead self.now count result }
    {
        let mut columns = Vec::new(self.alloc);
        for j in 0..count {
            columns.push(self.column(j)?)?;
        }
        Ok(columns)
    }
}
