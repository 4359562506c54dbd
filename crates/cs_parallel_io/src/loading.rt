//! Loading the surviving files of a store in parallel.
ghost use Rattle.std.specs.Prelude.{◌≡◌, None, IfOk, IfErr};
ghost use Rattle.std.specs.List.{AllByRecursion};
ghost use Rattle.std.specs.List.Sorted.{IsStrictlySortedBy};
ghost use Rattle.cs_schema.specs.FileNames.{name_cmp, surviving};
ghost use Rattle.cs_store.specs.Fault.{MemoryOr};
ghost use Rattle.cs_store.specs.FileSet.{contents_of};
ghost use Rattle.cs_store.specs.Load.{Loads, StopsLoading};
ghost use Rattle.cs_store.specs.LoadReadable.{LoadsReadable};
ghost use Rattle.cs_parallel_io.specs.Standing.{standing};

use crate::reading_ahead::read_ahead;
use crate::shared::SharedSource;
use cs_schema::{Catalog, Loss};
use cs_store::{Fault, FileSet, Readable, load, load_readable};
use std::alloc::{AllocError, Global};
use std::marker::Sync;
use std::thread::Threads;

/// Loads the files that survive the loss, reading in parallel. Files that the source does not have are left out.
///
/// `Read` names the first file, in the order of names, at which the device failed.
pub fn load_side_by_side<R: Threads + Sync, S: SharedSource>(
    rt: &R,
    alloc: Global,
    catalog: &Catalog,
    loss: Loss,
    source: &S,
) -> Result<FileSet, Fault>
    ensures ok { IfOk result (λ files.
        Loads (standing S.answers) (surviving catalog.now loss) source.now files source.now) }
    ensures err { IfErr result (λ fault. MemoryOr fault
        (StopsLoading (standing S.answers) (standing S.fails) (surviving catalog.now loss) source.now fault source.now)) }
{
    match read_ahead(rt, alloc, catalog, loss, source) {
        Ok(mut ahead) => load(alloc, catalog, loss, &mut ahead),
        Err(_) => Err(Fault::Memory),
    }
}

/// Loads the files that survive the loss and can be read, reading in parallel. Files that the source does not have are
/// left out.
///
/// No unreadable name is among the files.
pub fn load_readable_side_by_side<R: Threads + Sync, S: SharedSource>(
    rt: &R,
    alloc: Global,
    catalog: &Catalog,
    loss: Loss,
    source: &S,
) -> Result<Readable, AllocError>
    ensures ok { IfOk result (λ found. LoadsReadable (standing S.answers) (standing S.fails) (surviving catalog.now loss)
        source.now found.files found.unreadable.items source.now) }
    ensures order { IfOk result (λ found. IsStrictlySortedBy name_cmp found.unreadable.items) }
    ensures apart { IfOk result (λ found.
        AllByRecursion (λ name. contents_of found.files name ≡ None) found.unreadable.items) }
{
    let mut ahead = read_ahead(rt, alloc, catalog, loss, source)?;
    load_readable(alloc, catalog, loss, &mut ahead)
}
