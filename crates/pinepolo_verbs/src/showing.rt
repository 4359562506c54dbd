//! The verb `show`.
ghost use Rattle.std.specs.Prelude.{◌≡◌, IsTrue, IfOk, IfSome, is_some};
ghost use Rattle.std.specs.Option.{option_map};
ghost use Rattle.cs_schema.specs.FileNames.{HasName, file_path};
ghost use Rattle.cs_parallel_io.specs.Standing.{standing};
ghost use Rattle.pinepolo_verbs.specs.Promises.{IsDrawn};
ghost use Rattle.pinepolo_verbs.specs.Showing.{Shows, ShowsStore, ShowsFile, LooksOver};

use crate::drawing::{Drawn, draw, require_unnamed_picture};
use cs_file_decode::look_into;
use cs_inspection::{Badness, bad_files};
use cs_parallel_io::{SharedSource, load_readable_side_by_side};
use cs_rebuild::Run;
use cs_reports::{design_of, store_picture, with_site};
use cs_schema::{Catalog, FileName, Loss};
use cs_store::{Fault, StoreFault};
use pinepolo_answers::{Answer, FileLine, FileView, StoreView, files_of, lines_of, strays_of};
use pinepolo_args::ShowArgs;
use pinepolo_places::{
    Failure, Listings, Places, Refusal, Tables, VerbError, find_store, require_unchanged, watch,
};
use pinepolo_progress::{Progress, Stage};
use std::alloc::{AllocError, Global};
use std::marker::Sync;
use std::thread::Threads;

/// The bad files of a store, and what is said of each of its files.
#[derive(Drop)]
struct Seen {
    bad: Vec<(FileName, Badness)>,
    lines: Vec<FileLine>,
}

/// Reads the files of a store, and looks at each.
fn look_over<R: Threads + Sync, G: Progress + Sync, S: SharedSource>(
    run: &Run<'_, R, G>,
    catalog: &Catalog,
    source: &S,
) -> Result<Seen, VerbError>
    ensures { IfOk result (λ seen. LooksOver (standing S.answers) (standing S.fails) catalog.now source.now seen.bad.items seen.lines.items source.now) }
{
    let alloc = run.alloc;
    let Ok(found) = load_readable_side_by_side(run.rt, alloc, catalog, Loss::none(), source) else {
        return Err(VerbError::OutOfMemory);
    };
    let unreadable = found.unreadable.as_slice();
    run.gate.reached(Stage::Inspecting);
    let Ok(bad) = bad_files(run.rt, alloc, catalog, &found.files, unreadable) else {
        return Err(VerbError::OutOfMemory);
    };
    match lines_of(alloc, catalog, &found.files, bad.as_slice()) {
        Ok(lines) => Ok(Seen { bad, lines }),
        Err(_) => Err(VerbError::OutOfMemory),
    }
}

/// The picture of a store with these bad files.
fn picture_of(
    alloc: Global,
    catalog: &Catalog,
    bad: &[(FileName, Badness)],
) -> Result<String, AllocError> {
    let files = files_of(alloc, catalog, bad, &[])?;
    let mut lost = Loss::none();
    for file in &files {
        lost = with_site(lost, file.site);
    }
    let design = design_of(alloc, catalog, lost)?;
    store_picture(alloc, catalog, &design, files)
}

/// Draws a store with these bad files, if that is asked for.
fn draw_store<P: Places + Tables>(
    alloc: Global,
    places: &mut P,
    catalog: &Catalog,
    bad: &[(FileName, Badness)],
    to: Drawn<'_>,
) -> Result<Option<String>, VerbError>
    ensures { IfOk result (λ drawn. IsDrawn P.draws places.old (option_map (λ p. p.now) to.entry.svg) to.entry.prints (is_some drawn) places.new) }
{
    if !to.is_asked() {
        return Ok(None);
    }
    draw(alloc, places, to, picture_of(alloc, catalog, bad))
}

/// What a store holds: its catalog, its files, those that are bad, and what else stands in its folder. Its picture is written
/// or handed on, if one is asked for.
fn show_store<R: Threads + Sync, G: Progress + Sync, P: Listings + Tables>(
    run: &Run<'_, R, G>,
    places: &mut P,
    path: &str,
    to: Drawn<'_>,
) -> Result<StoreView, VerbError>
    ensures { IfOk result (λ view. ShowsStore P.reads P.opens (standing P.Store.answers) (standing P.Store.fails) P.lists P.draws P.leaves
        places.old path.now (option_map (λ p. p.now) to.entry.svg) to.entry.prints view places.new) }
{
    let alloc = run.alloc;
    let (catalog, source) = match find_store(alloc, places, path) {
        Ok(found) => found,
        Err(error) => return Err(error),
    };
    require_unnamed_picture(alloc, places, to.svg)?;
    let before = watch(alloc, places, path)?;
    let names = match places.names(path) {
        Ok(names) => names,
        Err(fault) => {
            return Err(VerbError::of_device(alloc, fault, Failure::ListStore, path));
        }
    };
    let Seen { bad, lines } = match look_over(run, &catalog, &source) {
        Ok(seen) => seen,
        Err(error) => return Err(error),
    };
    require_unchanged(alloc, places, path, &before)?;
    let Ok(design) = design_of(alloc, &catalog, Loss::none()) else {
        return Err(VerbError::OutOfMemory);
    };
    let picture = match draw_store(alloc, places, &catalog, bad.as_slice(), to) {
        Ok(picture) => picture,
        Err(error) => return Err(error),
    };
    let Ok(unfinished) = places.unfinished(path) else {
        return Err(VerbError::OutOfMemory);
    };
    match strays_of(alloc, lines.as_slice(), names) {
        Ok(strays) => Ok(StoreView {
            catalog,
            design,
            bad,
            lines,
            strays,
            unfinished,
            picture,
        }),
        Err(_) => Err(VerbError::OutOfMemory),
    }
}

/// Whether a text is the name of a file.
fn is_called(name: FileName, text: &str) -> bool
    ensures { IsTrue result → file_path name ≡ text.now }
{
    let path = name.path();
    path.as_str() == text
}

/// The name of the file that a text names, if the catalog has it.
fn file_named(alloc: Global, catalog: &Catalog, text: &str) -> Result<Option<FileName>, AllocError>
    ensures { IfOk result (λ found. IfSome found (λ name. HasName catalog.now name × (file_path name ≡ text.now))) }
{
    let _rules = catalog.projection_count();
    let names = catalog.surviving(alloc, Loss::none())?;
    for name in &names {
        if is_called(*name, text) {
            return Ok(Some(*name));
        }
    }
    Ok(None)
}

/// What the bytes of one file of a store say.
fn show_file<P: Places>(
    alloc: Global,
    places: &mut P,
    path: &str,
    file: &str,
) -> Result<FileView, VerbError>
    ensures { IfOk result (λ view. ShowsFile P.reads P.opens (standing P.Store.answers)
        places.old path.now file.now view places.new) }
{
    let (catalog, source) = match find_store(alloc, places, path) {
        Ok(found) => found,
        Err(error) => return Err(error),
    };
    let name = match file_named(alloc, &catalog, file) {
        Ok(Some(name)) => name,
        Ok(None) => {
            return Err(VerbError::refused_by(alloc, Refusal::NoSuchFile, path, &file));
        }
        Err(_) => return Err(VerbError::OutOfMemory),
    };
    let fault = match source.read_shared(name) {
        Ok(Some(bytes)) => match look_into(alloc, &catalog, name, bytes.as_slice()) {
            Ok(report) => {
                return Ok(FileView {
                    catalog,
                    name,
                    report,
                });
            }
            Err(_) => Fault::Memory,
        },
        Ok(None) => Fault::Missing(name),
        Err(StoreFault::Device) => Fault::Read(name),
        Err(StoreFault::Memory) => Fault::Memory,
    };
    Err(VerbError::of_store(alloc, &catalog, path, &fault))
}

/// What a store holds, or what the bytes of one of its files say.
pub fn show<R: Threads + Sync, G: Progress + Sync, P: Listings + Tables>(
    run: &Run<'_, R, G>,
    places: &mut P,
    request: &ShowArgs<'_>,
) -> Result<Answer, VerbError>
    ensures { IfOk result (λ answer. Shows P.reads P.opens (standing P.Store.answers) (standing P.Store.fails) P.lists P.draws P.leaves
        places.old request.now.store.now (option_map (λ file. file.now) request.now.file) (option_map (λ p. p.now) request.now.svg) request.now.prints_svg answer places.new) }
{
    let to = Drawn {
        svg: request.svg,
        prints: request.prints_svg,
    };
    match request.file {
        None => show_store(run, places, request.store, to).map(Answer::Shown),
        Some(file) => show_file(run.alloc, places, request.store, file).map(Answer::ShownFile),
    }
}
