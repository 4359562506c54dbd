//! The verb `diagnose`.
ghost use Rattle.std.specs.Prelude.{◌≡◌, None, IfOk, OnErr};
ghost use Rattle.std.specs.Option.{option_map};
ghost use Rattle.pinepolo_places.specs.Finding.{LooksUp};
ghost use Rattle.cs_parallel_io.specs.Standing.{standing};
ghost use Rattle.pinepolo_verbs.specs.Promises.{DiagnosesStore};

use crate::trusted::{changed_files, find_trusted, read_trusted};
use cs_diagnosis::{diagnose as diagnose_files, disputed_rows};
use cs_rebuild::Run;
use cs_verifying::manifest_if;
use pinepolo_answers::Diagnosed;
use pinepolo_args::DiagnoseArgs;
use pinepolo_places::{Listings, Tables, VerbError, require_unchanged, watch};
use pinepolo_progress::{Progress, Stage};
use std::marker::Sync;
use std::thread::Threads;

/// What is broken in a store, and which lost sites explain the rest by which table.
///
/// Files of which the manifest says another digest, where one is asked for, are as good as missing.
pub fn diagnose<R: Threads + Sync, G: Progress + Sync, P: Listings + Tables>(
    run: &Run<'_, R, G>,
    places: &mut P,
    request: &DiagnoseArgs<'_>,
) -> Result<Diagnosed, VerbError>
    ensures ok { IfOk result (λ diagnosed. DiagnosesStore P.reads P.opens (standing P.Store.answers) (standing P.Store.fails) P.opens_table P.Input.remaining P.leaves
        places.old request.now.store.now (option_map (λ path. path.now) request.now.manifest) request.now.at_most request.now.disputes diagnosed places.new) }
    ensures err { request.now.manifest ≡ None → OnErr result (LooksUp P.reads P.misses places.old request.now.store.now places.new) }
{
    let alloc = run.alloc;
    let manifest = match manifest_if(alloc, places, request.manifest) {
        Ok(manifest) => manifest,
        Err(error) => return Err(error),
    };
    let (catalog, source) = match find_trusted(alloc, places, request.store, &manifest) {
        Ok(found) => found,
        Err(error) => return Err(error),
    };
    let before = watch(alloc, places, request.store)?;
    let Ok(found) = read_trusted(run, &catalog, &source, &manifest) else {
        return Err(VerbError::OutOfMemory);
    };
    let unreadable = found.unreadable.as_slice();
    let Ok(changed) = changed_files(run, &catalog, &source, &manifest, unreadable) else {
        return Err(VerbError::OutOfMemory);
    };
    require_unchanged(alloc, places, request.store, &before)?;
    run.gate.reached(Stage::Inspecting);
    let Ok(diagnosis) = diagnose_files(run, &catalog, &found.files, unreadable, request.at_most)
    else {
        return Err(VerbError::OutOfMemory);
    };
    let Ok(disputes) = disputed_rows(alloc, &catalog, &diagnosis, request.disputes as usize) else {
        return Err(VerbError::OutOfMemory);
    };
    let Ok(unfinished) = places.unfinished(request.store) else {
        return Err(VerbError::OutOfMemory);
    };
    match Diagnosed::new(alloc, catalog, diagnosis, disputes, changed, unfinished) {
        Ok(diagnosed) => Ok(diagnosed),
        Err(_) => Err(VerbError::OutOfMemory),
    }
}
