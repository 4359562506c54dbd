//! A look into a file.
ghost use Rattle.std.specs.Prelude.{◌<◌, length, IfOk};
ghost use Rattle.cs_schema.specs.FileNames.{HasName};
ghost use Rattle.cs_schema.specs.declared.file_name.FileName.{FileName as NameData};
ghost use Rattle.cs_file_decode.specs.Reports.{IsReportOf, IsContentOf};

use crate::content::{Content, FileReport};
use crate::deltas::delta_nonsense;
use crate::digests::{Digests, digests_of};
use crate::joins::join_nonsense;
use crate::nonsense::{Nonsense, Wanted};
use crate::segments::segment_nonsense;
use cs_delta::read_delta;
use cs_jix::read_jix;
use cs_schema::{Catalog, FileName};
use cs_segment::seal::DIGEST;
use cs_segment::{FileFault, read_segment};
use std::alloc::{AllocError, Global};

/// What stands before the digest; all bytes where there is no room for one.
fn front_of(bytes: &[u8]) -> &[u8] {
    match bytes.len().checked_sub(DIGEST) {
        Some(end) => bytes.split_at(end).0,
        None => bytes,
    }
}

/// Where bytes whose parts make sense stop doing so as a whole: at the digest where it is not the one that is wanted, else
/// at the first of what has an order.
fn nonsense_of_whole(bytes: &[u8], digests: &Option<Digests>) -> Nonsense {
    let is_sealed = match digests {
        Some(digests) => digests.wanted == digests.found,
        None => false,
    };
    let (at, wanted) = if is_sealed {
        (0, Wanted::Order)
    } else {
        (bytes.len().saturating_sub(DIGEST), Wanted::Digest)
    };
    Nonsense { at, wanted }
}

/// What bytes hold as a segment.
fn segment_content(
    alloc: Global,
    catalog: &Catalog,
    p: u16,
    s: u16,
    bytes: &[u8],
    digests: &Option<Digests>,
) -> Result<Content, AllocError>
    requires { p < length catalog.now.projections }
    ensures { IfOk result (IsContentOf catalog.now (NameData.Seg p s) bytes.now) }
{
    match read_segment(alloc, catalog, p, s, bytes) {
        Ok(segment) => Ok(Content::Segment(segment)),
        Err(FileFault::Memory) => Err(AllocError),
        Err(FileFault::Damaged) => match segment_nonsense(alloc, catalog, p, s, front_of(bytes)) {
            Ok(Some(nonsense)) => Ok(Content::Nonsense(nonsense)),
            Ok(None) => Ok(Content::Nonsense(nonsense_of_whole(bytes, digests))),
            Err(refused) => Err(refused),
        },
    }
}

/// What bytes hold as a delta.
fn delta_content(
    alloc: Global,
    catalog: &Catalog,
    p: u16,
    s: u16,
    bytes: &[u8],
    digests: &Option<Digests>,
) -> Result<Content, AllocError>
    requires { p < length catalog.now.projections }
    ensures { IfOk result (IsContentOf catalog.now (NameData.Del p s) bytes.now) }
{
    match read_delta(alloc, catalog, p, s, bytes) {
        Ok(delta) => Ok(Content::Delta(delta)),
        Err(FileFault::Memory) => Err(AllocError),
        Err(FileFault::Damaged) => match delta_nonsense(catalog, p, s, front_of(bytes)) {
            Some(nonsense) => Ok(Content::Nonsense(nonsense)),
            None => Ok(Content::Nonsense(nonsense_of_whole(bytes, digests))),
        },
    }
}

/// What bytes hold as a join index.
fn join_content(
    alloc: Global,
    catalog: &Catalog,
    p: u16,
    s: u16,
    q: u16,
    bytes: &[u8],
) -> Result<Content, AllocError>
    ensures { IfOk result (IsContentOf catalog.now (NameData.Jix p s q) bytes.now) }
{
    let _catalog = catalog;
    match read_jix(alloc, p, s, q, bytes) {
        Ok(join) => Ok(Content::Join(join)),
        Err(FileFault::Memory) => Err(AllocError),
        Err(FileFault::Damaged) => match join_nonsense(p, s, q, front_of(bytes)) {
            Some(nonsense) => Ok(Content::Nonsense(nonsense)),
            None => Ok(Content::Nonsense(Nonsense {
                at: bytes.len().saturating_sub(DIGEST),
                wanted: Wanted::Digest,
            })),
        },
    }
}

/// What the bytes say that stand under a name of the catalog's. What they hold is exact; where they are no file of that
/// name, the place is that of the first part that makes no sense.
pub fn look_into(
    alloc: Global,
    catalog: &Catalog,
    name: FileName,
    bytes: &[u8],
) -> Result<FileReport, AllocError>
    requires { HasName catalog.now name }
    ensures { IfOk result (IsReportOf catalog.now name bytes.now) }
{
    let digests = digests_of(bytes);
    let content = match name {
        FileName::Seg { p, s } => segment_content(alloc, catalog, p, s, bytes, &digests),
        FileName::Del { p, s } => delta_content(alloc, catalog, p, s, bytes, &digests),
        FileName::Jix { p, s, q } => join_content(alloc, catalog, p, s, q, bytes),
    };
    match content {
        Ok(content) => Ok(FileReport {
            length: bytes.len(),
            digests,
            content,
        }),
        Err(refused) => Err(refused),
    }
}
