//! The verb `relayout`.
ghost use Rattle.std.specs.Prelude.{IfOk};
ghost use Rattle.cs_parallel_io.specs.Standing.{standing};
ghost use Rattle.pinepolo_verbs.specs.TablePromises.{LaysOutStore, LaysOutSurvivors, RelaysStore};

use crate::making::{NewPlace, make_store, unsafe_already};
use crate::surviving::{Surviving, read_survivors, refuse};
use crate::ways::require_free;
use cs_parallel_io::SharedSource;
use cs_rebuild::Run;
use cs_schema::Catalog;
use cs_store::FileSet;
use cs_tables::{Relaid, RelayoutFault, RelayoutWords};
use pinepolo_answers::NewStore;
use pinepolo_args::RelayoutArgs;
use pinepolo_places::{
    Refusal, VerbError, World, find_store, look_up_text, require_unchanged, watch,
};
use pinepolo_progress::{Progress, Stage};
use std::marker::Sync;
use std::thread::Threads;

/// A new catalog with its bytes, and the files of a store's table under it.
#[derive(Drop)]
struct LaidOut {
    found: (Catalog, Vec<u8>),
    relaid: Relaid,
}

/// Makes a new store of the table that another holds, under another catalog. It gets its name last, when all of it is written.
pub fn relayout<R: Threads + Sync, G: Progress + Sync, P: World>(
    run: &Run<'_, R, G>,
    places: &mut P,
    request: &RelayoutArgs<'_>,
) -> Result<NewStore, VerbError>
    ensures { IfOk result (λ store. RelaysStore P.reads P.opens (standing P.Store.answers) P.begins P.NewStore.takes P.NewStore.marks
        places.old request.now.store.now request.now.lost request.now.catalog.now request.now.new.now store places.new) }
{
    match require_free(run.alloc, places, request.new, request.replaces) {
        Ok(()) => {}
        Err(error) => return Err(error),
    }
    let before = watch(run.alloc, places, request.store)?;
    let LaidOut { found, relaid } = match lay_out_store(run, places, request) {
        Ok(laid_out) => laid_out,
        Err(error) => {
            require_unchanged(run.alloc, places, request.store, &before)?;
            return Err(error);
        }
    };
    require_unchanged(run.alloc, places, request.store, &before)?;
    run.gate.reached(Stage::Writing);
    let Relaid { files, rows } = relaid;
    let at = NewPlace {
        path: request.new,
        replaces: request.replaces,
    };
    make_store(run.alloc, places, found, files, rows, at)
}

/// Finds the store and the new catalog, and lays the store's table out.
fn lay_out_store<R: Threads + Sync, G: Progress + Sync, P: World>(
    run: &Run<'_, R, G>,
    places: &mut P,
    request: &RelayoutArgs<'_>,
) -> Result<LaidOut, VerbError>
    ensures { IfOk result (λ laid_out. LaysOutStore P.reads P.opens (standing P.Store.answers)
        places.old request.now.store.now request.now.lost request.now.catalog.now
        laid_out.found.0 laid_out.found.1.items laid_out.relaid places.new) }
{
    let (old, source) = match find_store(run.alloc, places, request.store) {
        Ok(found) => found,
        Err(error) => return Err(error),
    };
    let Ok(unfinished) = places.unfinished(request.store) else {
        return Err(VerbError::OutOfMemory);
    };
    let found = match look_up_text(run.alloc, places, request.catalog) {
        Ok(found) => found,
        Err(error) => return Err(error),
    };
    let store = Surviving {
        catalog: &old,
        lost: request.lost,
        path: request.store,
        unfinished,
    };
    match lay_out(run, request, &store, &source, &found.0) {
        Ok(relaid) => Ok(LaidOut { found, relaid }),
        Err(error) => Err(error),
    }
}

/// Lays the table out that the survivors of a store hold.
fn lay_out<R: Threads + Sync, G: Progress + Sync, S: SharedSource>(
    run: &Run<'_, R, G>,
    request: &RelayoutArgs<'_>,
    store: &Surviving<'_>,
    source: &S,
    new: &Catalog,
) -> Result<Relaid, VerbError>
    ensures { IfOk result (λ relaid. LaysOutSurvivors (standing S.answers) store.now.catalog.now store.now.lost source.now new.now relaid source.now) }
{
    let files = match read_survivors(run, store, source) {
        Ok(files) => files,
        Err(error) => return Err(error),
    };
    match cs_tables::relayout(run, store.catalog, &files, store.lost, new) {
        Ok(relaid) => Ok(relaid),
        Err(fault) => Err(layout_error(run, request, store, &files, new, &fault)),
    }
}

/// The error for a store that is not laid out anew.
fn layout_error<R: Threads + Sync, G: Progress + Sync>(
    run: &Run<'_, R, G>,
    request: &RelayoutArgs<'_>,
    store: &Surviving<'_>,
    files: &FileSet,
    new: &Catalog,
    fault: &RelayoutFault,
) -> VerbError {
    match fault {
        RelayoutFault::Memory => VerbError::OutOfMemory,
        RelayoutFault::Unsafe => unsafe_already(run.alloc, new, request.catalog),
        RelayoutFault::Store(fault) => refuse(run, store, files, &[], fault),
        _ => {
            let old = store.catalog;
            let words = RelayoutWords { old, new, fault };
            VerbError::refused_by(run.alloc, Refusal::Layout, request.catalog, &words)
        }
    }
}
