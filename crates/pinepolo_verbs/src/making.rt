//! New stores, whatever their rows come from.
ghost use Rattle.std.specs.Prelude.{IfOk, OnOk};
ghost use Rattle.pinepolo_verbs.specs.TablePromises.{IsNewStore, MakesStore, WritesStore};

use crate::ways::require_free;
use cs_design::{fatal_losses, greatest_k};
use cs_schema::{Catalog, Loss};
use cs_store::{Fault, FileSet, StoreFault, save};
use pinepolo_answers::NewStore;
use pinepolo_places::{Failure, NewFiles, Tables, VerbError};
use std::alloc::Global;

/// Where a new store is made.
#[derive(Clone, Copy)]
pub struct NewPlace<'a> {
    pub path: &'a str,
    /// Whether it takes the place of one that a run left which was stopped.
    pub replaces: bool,
}

/// Writes a new store of a catalog, of which these are the bytes. It gets its name last, when all of it is written.
pub fn make_store<P: Tables>(
    alloc: Global,
    places: &mut P,
    found: (Catalog, Vec<u8>),
    files: FileSet,
    rows: usize,
    at: NewPlace<'_>,
) -> Result<NewStore, VerbError>
    ensures { IfOk result (λ store. MakesStore P.begins P.NewStore.takes P.NewStore.marks
        places.old at.entry.path.now found.0 found.1.items files rows store places.new) }
{
    let (catalog, bytes) = found;
    match write_store(alloc, places, bytes.as_slice(), &files, at) {
        Ok(()) => finish(alloc, catalog, files, rows),
        Err(error) => Err(error),
    }
}

/// The error for the catalog at a path that is unsafe without any loss.
pub fn unsafe_already(alloc: Global, catalog: &Catalog, path: &str) -> VerbError {
    VerbError::of_store(alloc, catalog, path, &Fault::Unsafe(Loss::none()))
}

/// The error for a new store of which a part could not be written.
fn write_error<S: NewFiles>(alloc: Global, store: &S, fault: &Fault) -> VerbError {
    let Fault::Write(at) = fault else {
        return VerbError::OutOfMemory;
    };
    match store.unwritten(alloc, *at) {
        Ok(part) => {
            let failure = Failure::WriteNew;
            VerbError::of_device(alloc, StoreFault::Device, failure, part.as_str())
        }
        Err(_) => VerbError::OutOfMemory,
    }
}

/// Why a new store could not be begun: something stands there meanwhile, or a call failed.
fn begin_error<P: Tables>(
    alloc: Global,
    places: &P,
    fault: StoreFault,
    at: NewPlace<'_>,
) -> VerbError {
    match require_free(alloc, places, at.path, at.replaces) {
        Ok(()) => VerbError::of_device(alloc, fault, Failure::MakeNew, at.path),
        Err(error) => error,
    }
}

/// Begins the store, puts the files there and gives it its name.
fn write_store<P: Tables>(
    alloc: Global,
    places: &mut P,
    bytes: &[u8],
    files: &FileSet,
    at: NewPlace<'_>,
) -> Result<(), VerbError>
    ensures { OnOk result (WritesStore P.begins P.NewStore.takes P.NewStore.marks places.old at.entry.path.now bytes.now files.now places.new) }
{
    let mut sink = match places.new_store(at.path, bytes, at.replaces) {
        Ok(sink) => sink,
        Err(fault) => return Err(begin_error(alloc, places, fault, at)),
    };
    match save(files, &mut sink) {
        Ok(()) => Ok(()),
        Err(fault) => Err(write_error(alloc, &sink, &fault)),
    }
}

/// What is answered once the store is there.
fn finish(
    alloc: Global,
    catalog: Catalog,
    files: FileSet,
    rows: usize,
) -> Result<NewStore, VerbError>
    ensures { IfOk result (IsNewStore catalog files rows) }
{
    let k = greatest_k(&catalog, Loss::none()).unwrap_or(0);
    let Ok(fatal) = fatal_losses(alloc, &catalog, Loss::none()) else {
        return Err(VerbError::OutOfMemory);
    };
    match fatal.first() {
        Some(first) => Ok(NewStore {
            catalog,
            rows,
            files,
            k,
            fatal: *first,
        }),
        None => unreachable!(),
    }
}
