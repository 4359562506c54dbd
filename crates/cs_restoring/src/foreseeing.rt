//! What a restore would do to a store.
ghost use Rattle.std.specs.Prelude.{◌≡◌, IfOk};
ghost use Rattle.cs_restoring.specs.Restores.{Foresees};

use crate::ending::LostStore;
use crate::planning::{plan, restored_of};
use crate::reading::{doubt_of, doubted, read_files};
use cs_rebuild::Run;
use cs_schema::Catalog;
use pinepolo_answers::Restoration;
use pinepolo_args::RestoreArgs;
use pinepolo_places::{Failure, Listings, Shelves, VerbError, WorkKind, refuse_pending};
use pinepolo_progress::Progress;
use std::alloc::Global;
use std::marker::Sync;
use std::thread::Threads;

/// What a restore of a store with this catalog would do. It is only looked at.
pub fn look_ahead<R: Threads + Sync, G: Progress + Sync, P: Listings + Shelves>(
    run: &Run<'_, R, G>,
    places: &P,
    catalog: Catalog,
    request: &RestoreArgs<'_>,
) -> Result<Restoration, VerbError>
    ensures { IfOk result (Foresees P.looks_at P.Shelf.gives P.Shelf.refuses P.Shelf.holds request.now.accepts_loss request.now.resumes places.now request.now.store.now catalog request.now.lost) }
{
    let lost = request.lost;
    if let Some(error) = refuse_pending(run.alloc, places, request.store) {
        return Err(error);
    }
    let mut shelf = match places.look(request.store, &catalog, lost) {
        Ok(shelf) => shelf,
        Err(fault) => {
            let failure = Failure::ReadStore;
            return Err(VerbError::of_device(run.alloc, fault, failure, request.store));
        }
    };
    let read = match read_files(run.alloc, &catalog, &mut shelf) {
        Ok(read) => read,
        Err(error) => return Err(error),
    };
    match doubt_of(
        run,
        &catalog,
        &read,
        lost,
        request.accepts_loss,
        request.resumes,
    ) {
        Ok(None) => {}
        Ok(Some(doubt)) => return match doubted(run.alloc, catalog, doubt, lost, request.resumes) {
            Ok(doubted) => Ok(Restoration::Doubted(doubted)),
            Err(error) => Err(error),
        },
        Err(error) => return Err(error),
    }
    let store = LostStore {
        catalog: &catalog,
        path: request.store,
        lost,
        verb: WorkKind::Restore,
    };
    match plan(run, &store, &read) {
        Ok(steps) => Ok(Restoration::Done(restored_of(catalog, lost, None, steps, None))),
        Err(error) => Err(error),
    }
}
