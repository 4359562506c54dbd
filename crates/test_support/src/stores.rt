//! Small stores by their parts, and losses of sites.
use crate::columns::Column;
use crate::files::{Delta, deleting_file, delta_file, join_file, rows_of, segment_file};
use cs_schema::{Catalog, Code, FileName, Loss};
use cs_store::FileSet;
use std::alloc::{AllocError, Global};

/// The segments of a store by `p` and `s`, deltas with items, and join indexes by `p`, `s` and `q`.
#[derive(Drop)]
pub struct Parts<'a> {
    pub segments: &'a [(u16, u16, &'a [Column<'a>])],
    pub deltas: &'a [(u16, u16, Delta<'a>)],
    pub joins: &'a [(u16, u16, u16, &'a [(u16, u32)])],
}

/// The encodings of a projection's columns; none if the catalog does not have it.
fn codes_of(catalog: &Catalog, p: u16) -> &[Code] {
    match catalog.projections.get(p as usize) {
        Some(projection) => projection.codes.as_slice(),
        None => &[],
    }
}

/// Puts a segment whose columns are in the catalog's encodings, and a delta without items.
pub fn put_segment(
    alloc: Global,
    files: &mut FileSet,
    catalog: &Catalog,
    (p, s): (u16, u16),
    columns: &[Column],
) -> Result<(), AllocError> {
    let segment = segment_file(alloc, codes_of(catalog, p), p, s, columns)?;
    files.put(FileName::Seg { p, s }, segment)?;
    let delta = deleting_file(alloc, p, s, rows_of(columns), &[])?;
    files.put(FileName::Del { p, s }, delta)
}

/// Puts all these parts.
pub fn put_parts(
    alloc: Global,
    files: &mut FileSet,
    catalog: &Catalog,
    parts: &Parts,
) -> Result<(), AllocError> {
    for (p, s, columns) in parts.segments {
        put_segment(alloc, files, catalog, (*p, *s), columns)?;
    }
    for (p, s, delta) in parts.deltas {
        files.put(
            FileName::Del { p: *p, s: *s },
            delta_file(alloc, *p, *s, *delta)?,
        )?;
    }
    for (p, s, q, entries) in parts.joins {
        let file = join_file(alloc, *p, *s, *q, entries)?;
        files.put(
            FileName::Jix {
                p: *p,
                s: *s,
                q: *q,
            },
            file,
        )?;
    }
    Ok(())
}

/// The loss of these sites.
pub fn loss_of(sites: &[u8]) -> Loss {
    let mut loss = Loss::none();
    for site in sites {
        if *site >= 1 && *site <= 16 {
            loss = loss.with(*site);
        }
    }
    loss
}
