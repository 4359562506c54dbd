//! The verb `recover`.
ghost use Rattle.std.specs.Prelude.{IfOk, OnOk, OnErr};
ghost use Rattle.pinepolo_places.specs.Finding.{LooksUp};
ghost use Rattle.cs_parallel_io.specs.Standing.{standing};
ghost use Rattle.pinepolo_verbs.specs.Promises.{RecoversStore, StopsRecovery, RebuildsStore, WritesOutput, AsksForOutput};

use crate::ways::{make_error, require_unnamed};
use cs_parallel_io::{load_side_by_side, save_batch};
use cs_rebuild::{Run, rebuild_owned};
use cs_schema::Catalog;
use cs_store::{Fault, FileSet, StoreFault};
use pinepolo_answers::Recovered;
use pinepolo_args::RecoverArgs;
use pinepolo_places::{Failure, Listings, Tables, VerbError, find_store, require_unchanged, watch};
use pinepolo_progress::{Progress, Stage};
use std::alloc::Global;
use std::marker::Sync;
use std::thread::Threads;

/// Recovers what a store has lost into an output, which is made only after the store was accepted, and marked last.
pub fn recover<R: Threads + Sync, G: Progress + Sync, P: Listings + Tables>(
    run: &Run<'_, R, G>,
    places: &mut P,
    request: &RecoverArgs<'_>,
) -> Result<Recovered, VerbError>
    ensures ok { IfOk result (λ recovered. RecoversStore P.reads P.opens (standing P.Store.answers) P.makes P.Output.takes P.Output.marks
        places.old request.now.store.now request.now.lost request.now.output.now recovered.files places.new) }
    ensures err { OnErr result (StopsRecovery P.reads P.opens (standing P.Store.answers) P.makes P.misses P.denies
        places.old request.now.store.now request.now.lost request.now.output.now places.new) }
{
    let (catalog, rebuilt) = match rebuild_store(run, places, request) {
        Ok(found) => found,
        Err(error) => return Err(error),
    };
    run.gate.reached(Stage::Writing);
    match write_output(run, places, &rebuilt, request.output) {
        Ok(()) => Ok(Recovered {
            catalog,
            lost: request.lost,
            files: rebuilt,
        }),
        Err(error) => Err(error),
    }
}

/// The files that recover what a store has lost, with its catalog.
fn rebuild_store<R: Threads + Sync, G: Progress + Sync, P: Listings + Tables>(
    run: &Run<'_, R, G>,
    places: &mut P,
    request: &RecoverArgs<'_>,
) -> Result<(Catalog, FileSet), VerbError>
    ensures ok { IfOk result (λ found. RebuildsStore P.reads P.opens (standing P.Store.answers)
        places.old request.now.store.now request.now.lost found.1 places.new) }
    ensures err { OnErr result (LooksUp P.reads P.misses places.old request.now.store.now places.new) }
{
    let (alloc, lost) = (run.alloc, request.lost);
    let (catalog, source) = match find_store(alloc, places, request.store) {
        Ok(found) => found,
        Err(error) => return Err(error),
    };
    require_unnamed(alloc, places, request.output)?;
    let before = watch(alloc, places, request.store)?;
    let files = match load_side_by_side(run.rt, alloc, &catalog, lost, &source) {
        Ok(files) => files,
        Err(fault) => {
            require_unchanged(alloc, places, request.store, &before)?;
            return Err(VerbError::of_store(alloc, &catalog, request.store, &fault));
        }
    };
    require_unchanged(alloc, places, request.store, &before)?;
    match rebuild_owned(run, &catalog, lost, files) {
        Ok(rebuilt) => Ok((catalog, rebuilt)),
        Err(fault) => Err(VerbError::of_store(alloc, &catalog, request.store, &fault)),
    }
}

/// Makes the output, puts the files there and marks it.
fn write_output<R: Threads + Sync, G: Progress + Sync, P: Listings + Tables>(
    run: &Run<'_, R, G>,
    places: &mut P,
    files: &FileSet,
    path: &str,
) -> Result<(), VerbError>
    ensures ok { OnOk result (WritesOutput P.makes P.Output.takes P.Output.marks places.old path.now files.now places.new) }
    ensures err { OnErr result (AsksForOutput P.makes P.denies places.old path.now places.new) }
{
    let sink = match places.output(path) {
        Ok(sink) => sink,
        Err(fault) => {
            return Err(make_error(run.alloc, places, fault, Failure::MakeOutput, path));
        }
    };
    match save_batch(run.rt, run.alloc, files, sink) {
        Ok(()) => Ok(()),
        Err(fault) => Err(write_error(run.alloc, &fault, path)),
    }
}

/// The error for a file of an output that could not be written.
fn write_error(alloc: Global, fault: &Fault, path: &str) -> VerbError {
    match fault {
        Fault::Write(name) => {
            let failure = Failure::WriteOutput(*name);
            VerbError::of_device(alloc, StoreFault::Device, failure, path)
        }
        _ => VerbError::OutOfMemory,
    }
}
