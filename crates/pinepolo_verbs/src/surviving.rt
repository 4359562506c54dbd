//! What survives of a store: its files, and why they hold no table.
ghost use Rattle.std.specs.Prelude.{IfOk};
ghost use Rattle.cs_schema.specs.FileNames.{surviving};
ghost use Rattle.cs_store.specs.Load.{Loads};
ghost use Rattle.cs_parallel_io.specs.Standing.{standing};

use cs_inspection::bad_survivors;
use cs_parallel_io::{SharedSource, load_readable_side_by_side};
use cs_rebuild::Run;
use cs_schema::{Catalog, FileName, Loss};
use cs_store::{Fault, FileSet, Readable};
use pinepolo_answers::files_of;
use pinepolo_places::{Step, VerbError, WorkKind};
use pinepolo_progress::Progress;
use std::marker::Sync;
use std::thread::Threads;

/// A store of which some sites are lost.
#[derive(Clone, Copy)]
pub struct Surviving<'a> {
    pub catalog: &'a Catalog,
    pub lost: Loss,
    /// The folder of the store.
    pub path: &'a str,
    /// Which kind of work on it was left unfinished.
    pub unfinished: Option<WorkKind>,
}

impl Surviving<'_> {
    /// What tells more of the store, or makes it whole.
    fn step(&self) -> Step {
        match self.unfinished {
            Some(kind) => Step::Resume(kind),
            None => Step::Diagnose,
        }
    }
}

/// Reads the files that survive. Where some can't be read, all that are bad are named.
pub fn read_survivors<R: Threads + Sync, G: Progress + Sync, S: SharedSource>(
    run: &Run<'_, R, G>,
    store: &Surviving<'_>,
    source: &S,
) -> Result<FileSet, VerbError>
    ensures { IfOk result (λ files. Loads (standing S.answers) (surviving store.now.catalog.now store.now.lost) source.now files source.now) }
{
    let Ok(found) = load_readable_side_by_side(run.rt, run.alloc, store.catalog, store.lost, source)
    else {
        return Err(VerbError::OutOfMemory);
    };
    let Readable { files, unreadable } = found;
    match unreadable.first() {
        None => Ok(files),
        Some(name) => Err(refuse(
            run,
            store,
            &files,
            unreadable.as_slice(),
            &Fault::Read(*name),
        )),
    }
}

/// The error for a fault of what survives: all bad files are named, if it comes of bad files.
pub fn refuse<R: Threads + Sync, G: Progress + Sync>(
    run: &Run<'_, R, G>,
    store: &Surviving<'_>,
    files: &FileSet,
    unreadable: &[FileName],
    fault: &Fault,
) -> VerbError {
    let (alloc, catalog) = (run.alloc, store.catalog);
    let error = VerbError::of_store(alloc, catalog, store.path, fault);
    if let Fault::Memory | Fault::Site | Fault::Unsafe(_) = fault {
        return error;
    }
    let Ok(bad) = bad_survivors(run.rt, alloc, catalog, files, unreadable, store.lost) else {
        return VerbError::OutOfMemory;
    };
    match files_of(alloc, catalog, bad.as_slice(), &[]) {
        Ok(bad) => error.with(store.step(), bad),
        Err(_) => VerbError::OutOfMemory,
    }
}
