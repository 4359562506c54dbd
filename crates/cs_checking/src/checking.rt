//! The verb `check`.
ghost use Rattle.std.specs.Prelude.{IfOk, OnErr};
ghost use Rattle.pinepolo_places.specs.Finding.{LooksUp};
ghost use Rattle.cs_parallel_io.specs.Standing.{standing};
ghost use Rattle.cs_checking.specs.Checks.{ChecksStore};

use crate::judging::judge;
use cs_parallel_io::load_readable_side_by_side;
use cs_rebuild::Run;
use cs_schema::Loss;
use pinepolo_answers::Checked;
use pinepolo_args::CheckArgs;
use pinepolo_places::{Listings, VerbError, find_store, require_unchanged, watch};
use pinepolo_progress::Progress;
use std::marker::Sync;
use std::thread::Threads;

/// Whether a store is sound, and how many of its sites may fail; all its bad files.
pub fn check<R: Threads + Sync, G: Progress + Sync, P: Listings>(
    run: &Run<'_, R, G>,
    places: &mut P,
    request: &CheckArgs<'_>,
) -> Result<Checked, VerbError>
    ensures ok { IfOk result (λ checked. ChecksStore P.reads P.opens (standing P.Store.answers) (standing P.Store.fails) P.leaves
        places.old request.now.store.now request.now.k checked places.new) }
    ensures err { OnErr result (LooksUp P.reads P.misses places.old request.now.store.now places.new) }
{
    let (rt, alloc) = (run.rt, run.alloc);
    let (catalog, source) = match find_store(alloc, places, request.store) {
        Ok(found) => found,
        Err(error) => return Err(error),
    };
    let before = watch(alloc, places, request.store)?;
    let Ok(found) = load_readable_side_by_side(rt, alloc, &catalog, Loss::none(), &source) else {
        return Err(VerbError::OutOfMemory);
    };
    let Ok(unfinished) = places.unfinished(request.store) else {
        return Err(VerbError::OutOfMemory);
    };
    require_unchanged(alloc, places, request.store, &before)?;
    let unreadable = found.unreadable.as_slice();
    let is_unreadable = !unreadable.is_empty();
    match judge(run, &catalog, &found.files, unreadable, request.k) {
        Ok((bad, verdict)) => Ok(Checked {
            catalog,
            bad,
            is_unreadable,
            verdict,
            unfinished,
        }),
        Err(error) => Err(error),
    }
}
