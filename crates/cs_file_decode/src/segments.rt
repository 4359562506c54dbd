//! Where the bytes of a segment stop making sense.
ghost use Rattle.std.specs.Prelude.{◌≤◌, ◌<◌, length, IfOk};
ghost use Rattle.cs_schema.specs.CatalogData.{projection};

use crate::cursor::Cursor;
use crate::nonsense::{Nonsense, Wanted};
use cs_schema::limits::SEGMENT_ROWS;
use cs_schema::{Catalog, Code, Kind};
use cs_segment::bodies::read_body;
use cs_segment::fault::FileFault;
use cs_segment::format::{code_number, kind_number};
use std::alloc::{AllocError, Global};

/// The number of rows at the head of a segment of so many columns, and the place behind the head.
fn past_head<'a>(
    start: Cursor<'a>,
    p: u16,
    s: u16,
    width: usize,
) -> Result<(u32, Cursor<'a>), Nonsense>
    ensures { IfOk result (λ r. r.0 ≤ 1048576) }
{
    let Some(marked) = start.past(b"CSSEG001") else {
        return Err(start.stop(Wanted::Mark));
    };
    let Some(placed) = marked.past(&p.to_be_bytes()) else {
        return Err(marked.stop(Wanted::Name));
    };
    let Some(named) = placed.past(&s.to_be_bytes()) else {
        return Err(placed.stop(Wanted::Name));
    };
    let (rows, counted) = match named.number() {
        Some((rows, counted)) if rows <= SEGMENT_ROWS => (rows, counted),
        _ => return Err(named.stop(Wanted::Rows)),
    };
    match counted.short() {
        Some((columns, headed)) if usize::from(columns) == width => Ok((rows, headed)),
        _ => Err(counted.stop(Wanted::Columns)),
    }
}

/// The body of a column, and the place behind it.
fn past_column<'a>(start: Cursor<'a>, code: Code, kind: Kind) -> Option<(&'a [u8], Cursor<'a>)> {
    let head = [code_number(code), kind_number(kind)];
    let (length, sized) = start.past(&head)?.number()?;
    sized.bytes(length as usize)
}

/// Where the bytes of a segment before the digest stop making sense, if they do.
pub fn segment_nonsense(
    alloc: Global,
    catalog: &Catalog,
    p: u16,
    s: u16,
    front: &[u8],
) -> Result<Option<Nonsense>, AllocError>
    requires { p < length catalog.now.projections }
{
    let width = catalog.width(p);
    let (rows, mut place) = match past_head(Cursor::new(front), p, s, width) {
        Ok(headed) => headed,
        Err(nonsense) => return Ok(Some(nonsense)),
    };
    for j in 0..width {
        let Some((body, behind)) = past_column(place, catalog.code(p, j), catalog.column_kind(p, j))
        else {
            return Ok(Some(place.stop(Wanted::Column(j))));
        };
        match read_body(alloc, catalog, p, j, body, rows) {
            Ok(_) => place = behind,
            Err(FileFault::Damaged) => return Ok(Some(place.stop(Wanted::Cells(j)))),
            Err(FileFault::Memory) => return Err(AllocError),
        }
    }
    if place.rest().is_empty() {
        Ok(None)
    } else {
        Ok(Some(place.stop(Wanted::End)))
    }
}
