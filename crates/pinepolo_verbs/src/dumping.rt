//! The verb `dump`.
ghost use Rattle.std.specs.Prelude.{◌≡◌, IfOk};
ghost use Rattle.std.specs.Option.{option_map};
ghost use Rattle.cs_parallel_io.specs.Standing.{standing};
ghost use Rattle.pinepolo_verbs.specs.TablePromises.{DumpsStore, GivesText, ReadsText, WritesText};

use crate::surviving::{Surviving, read_survivors, refuse};
use crate::ways::{make_error, require_unnamed};
use cs_parallel_io::SharedSource;
use cs_rebuild::Run;
use cs_tables::DumpFault;
use pinepolo_answers::Dumped;
use pinepolo_args::DumpArgs;
use pinepolo_places::{
    Failure, Tables, VerbError, WorkKind, World, find_store, require_unchanged, watch,
};
use pinepolo_progress::{Progress, Stage};
use std::alloc::Global;
use std::marker::Sync;
use std::thread::Threads;

/// The text of a store's table, and which kind of work on the store was left unfinished.
#[derive(Drop)]
struct TableText {
    text: Vec<u8>,
    unfinished: Option<WorkKind>,
}

/// Writes the table of a store as CSV, to a new file or as the answer.
pub fn dump<R: Threads + Sync, G: Progress + Sync, P: World>(
    run: &Run<'_, R, G>,
    places: &mut P,
    request: &DumpArgs<'_>,
) -> Result<Dumped, VerbError>
    ensures { IfOk result (λ dumped. DumpsStore P.reads P.opens (standing P.Store.answers) P.leaves P.writes_table
        places.old request.now.store.now request.now.lost (option_map (λ path. path.now) request.now.table) dumped places.new) }
{
    let alloc = run.alloc;
    if let Some(path) = request.table {
        match require_unnamed(alloc, places, path) {
            Ok(()) => {}
            Err(error) => return Err(error),
        }
    }
    let before = watch(alloc, places, request.store)?;
    let text = match read_text(run, places, request) {
        Ok(text) => text,
        Err(error) => {
            require_unchanged(alloc, places, request.store, &before)?;
            return Err(error);
        }
    };
    require_unchanged(alloc, places, request.store, &before)?;
    run.gate.reached(Stage::Writing);
    write_text(alloc, places, request.table, text)
}

/// The text of the table that a store holds, without the sites that are lost.
fn read_text<R: Threads + Sync, G: Progress + Sync, P: World>(
    run: &Run<'_, R, G>,
    places: &mut P,
    request: &DumpArgs<'_>,
) -> Result<TableText, VerbError>
    ensures { IfOk result (λ found. ReadsText P.reads P.opens (standing P.Store.answers) P.leaves
        places.old request.now.store.now request.now.lost found.text.items found.unfinished places.new) }
{
    let (catalog, source) = match find_store(run.alloc, places, request.store) {
        Ok(found) => found,
        Err(error) => return Err(error),
    };
    let Ok(unfinished) = places.unfinished(request.store) else {
        return Err(VerbError::OutOfMemory);
    };
    let store = Surviving {
        catalog: &catalog,
        lost: request.lost,
        path: request.store,
        unfinished,
    };
    match text_of(run, &store, &source) {
        Ok(text) => Ok(TableText { text, unfinished }),
        Err(error) => Err(error),
    }
}

/// The text of the table that the survivors of a store hold.
fn text_of<R: Threads + Sync, G: Progress + Sync, S: SharedSource>(
    run: &Run<'_, R, G>,
    store: &Surviving<'_>,
    source: &S,
) -> Result<Vec<u8>, VerbError>
    ensures { IfOk result (λ text. GivesText (standing S.answers) store.now.catalog.now store.now.lost source.now text.items source.now) }
{
    let files = match read_survivors(run, store, source) {
        Ok(files) => files,
        Err(error) => return Err(error),
    };
    match cs_tables::dump(run, store.catalog, &files, store.lost, Vec::new(run.alloc)) {
        Ok(text) => Ok(text),
        Err(DumpFault::Store(fault)) => Err(refuse(run, store, &files, &[], &fault)),
        Err(DumpFault::Text(_)) => Err(VerbError::OutOfMemory),
    }
}

/// Writes a text to a new file, or hands it on as the answer.
fn write_text<P: Tables>(
    alloc: Global,
    places: &mut P,
    path: Option<&str>,
    found: TableText,
) -> Result<Dumped, VerbError>
    ensures { IfOk result (λ dumped. WritesText P.writes_table places.old found.text.items (option_map (λ p. p.now) path.entry) dumped places.new
        × (dumped.unfinished ≡ found.unfinished)) }
{
    let TableText { text, unfinished } = found;
    let bytes = text.len();
    let Some(path) = path else {
        return Ok(Dumped {
            text: Some(text),
            bytes,
            unfinished,
        });
    };
    match places.write_table(path, text.as_slice()) {
        Ok(()) => Ok(Dumped {
            text: None,
            bytes,
            unfinished,
        }),
        Err(fault) => Err(make_error(alloc, places, fault, Failure::MakeNew, path)),
    }
}
