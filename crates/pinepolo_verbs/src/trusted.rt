//! The files of a store, of which a manifest may say that some are not to be trusted.
ghost use Rattle.std.specs.Prelude.{◌≡◌, [], None, IfOk, MatchOption, OnErr};
ghost use Rattle.std.specs.List.{AllByRecursion};
ghost use Rattle.cs_schema.specs.FileNames.{surviving};
ghost use Rattle.cs_store.specs.FileSet.{contents_of};
ghost use Rattle.cs_store.specs.LoadReadable.{LoadsReadable};
ghost use Rattle.pinepolo_places.specs.Finding.{LooksUp};
ghost use Rattle.cs_parallel_io.specs.Standing.{standing};
ghost use Rattle.cs_verifying.specs.Trust.{gives_trusted, refuses_trusted};
ghost use Rattle.pinepolo_verbs.specs.Changed.{AreChanged, IsChanged, IsUnchanged, TellsDamage};
ghost use Rattle.pinepolo_verbs.specs.Promises.{FindsTrusted};

use cs_inspection::bad_files;
use cs_manifest::{CATALOG, Manifest};
use cs_parallel_io::{SharedSource, load_readable_side_by_side};
use cs_rebuild::Run;
use cs_schema::{Catalog, FileName, Loss};
use cs_store::{FileSet, Readable};
use cs_verifying::{Trusted, is_changed};
use pinepolo_answers::{ChangedFile, badness_of};
use pinepolo_places::{Places, Refusal, VerbError, find_store_text};
use pinepolo_progress::Progress;
use std::alloc::{AllocError, Global};
use std::marker::Sync;
use std::thread::Threads;

/// The store at this path, with its catalog, of which the manifest says no other digest.
pub fn find_trusted<P: Places>(
    alloc: Global,
    places: &mut P,
    path: &str,
    manifest: &Manifest,
) -> Result<(Catalog, P::Store), VerbError>
    ensures ok { IfOk result (λ found. FindsTrusted P.reads P.opens manifest.now places.old path.now found.0 found.1 places.new) }
    ensures err { OnErr result (LooksUp P.reads P.misses places.old path.now places.new) }
{
    let (catalog, bytes, source) = match find_store_text(alloc, places, path) {
        Ok(found) => found,
        Err(error) => return Err(error),
    };
    if is_changed(manifest, CATALOG, bytes.as_slice()) {
        return Err(VerbError::refused(alloc, Refusal::CatalogChanged, path));
    }
    Ok((catalog, source))
}

/// Reads each file of a store that can be read, and of which the manifest says no other digest.
pub fn read_trusted<R: Threads + Sync, G: Progress + Sync, S: SharedSource>(
    run: &Run<'_, R, G>,
    catalog: &Catalog,
    source: &S,
    manifest: &Manifest,
) -> Result<Readable, AllocError>
    ensures loads { IfOk result (λ found. LoadsReadable (gives_trusted manifest.now (standing S.answers)) (refuses_trusted manifest.now (standing S.answers) (standing S.fails))
        (surviving catalog.now []) source.now found.files found.unreadable.items source.now) }
    ensures apart { IfOk result (λ found. AllByRecursion (λ name. contents_of found.files name ≡ None) found.unreadable.items) }
{
    let trusted = Trusted { source, manifest };
    load_readable_side_by_side(run.rt, run.alloc, catalog, Loss::none(), &trusted)
}

/// Whether these bytes alone are no file of this name.
fn is_damaged<R: Threads + Sync, G: Progress + Sync>(
    run: &Run<'_, R, G>,
    catalog: &Catalog,
    name: FileName,
    bytes: Vec<u8>,
) -> Result<bool, AllocError>
    ensures { IfOk result (TellsDamage catalog.now name bytes.items) }
{
    let mut alone = FileSet::new(run.alloc)?;
    alone.put(name, bytes)?;
    let bad = bad_files(run.rt, run.alloc, catalog, &alone, &[])?;
    Ok(badness_of(bad.as_slice(), name).is_some())
}

/// The file of this name, if it can be read and the manifest says another digest of it.
fn changed_file<R: Threads + Sync, G: Progress + Sync, S: SharedSource>(
    run: &Run<'_, R, G>,
    catalog: &Catalog,
    source: &S,
    manifest: &Manifest,
    name: FileName,
) -> Result<Option<ChangedFile>, AllocError>
    ensures { IfOk result (λ found. MatchOption found
        (IsUnchanged catalog.now manifest.now (standing S.answers) (standing S.fails) source.now name)
        (IsChanged catalog.now manifest.now (standing S.answers) (standing S.fails) source.now name)) }
{
    let bytes = match source.read_shared(name) {
        Ok(Some(bytes)) => bytes,
        Ok(None) => return Ok(None),
        Err(_) => return Ok(None),
    };
    if !is_changed(manifest, name.path().as_str(), bytes.as_slice()) {
        return Ok(None);
    }
    match is_damaged(run, catalog, name, bytes) {
        Ok(is_damaged) => Ok(Some(ChangedFile { name, is_damaged })),
        Err(refused) => Err(refused),
    }
}

/// Those of these files that can be read and of which the manifest says another digest. Each is read once more.
pub fn changed_files<R: Threads + Sync, G: Progress + Sync, S: SharedSource>(
    run: &Run<'_, R, G>,
    catalog: &Catalog,
    source: &S,
    manifest: &Manifest,
    unreadable: &[FileName],
) -> Result<Vec<ChangedFile>, AllocError>
    ensures { IfOk result (λ changed. AreChanged catalog.now manifest.now (standing S.answers) (standing S.fails) source.now
        unreadable.now changed.items) }
{
    let mut changed = Vec::new(run.alloc);
    for name in unreadable {
        if let Some(file) = changed_file(run, catalog, source, manifest, *name)? {
            changed.push(file)?;
        }
    }
    Ok(changed)
}
