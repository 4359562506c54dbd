//! Recovering, checking and returning the table of a store.
ghost use Rattle.std.specs.Prelude.{◌≡◌, ◌≤◌, Some};
ghost use Rattle.cs_store.specs.FileSet.{Files, contents_of};
ghost use Rattle.cs_recovery.specs.Claims.{IsRebuildAnswer, IsCheckAnswer};
ghost use Rattle.cs_recovery.specs.Laws.{RebuildClauses, CheckClauses};
ghost use Rattle.cs_recovery.specs.TableAnswers.{IsTableAnswer, TableClauses};
ghost use Rattle.cs_rebuild.specs.SharedFiles.{shared_files};
ghost use Rattle.cs_rebuild.specs.Steps.{safety_refusal as refusal_of};

use crate::answering::answer;
use crate::run::Run;
use crate::shared_files::SharedFiles;
use crate::wanted::{Answer, Wanted};
use cs_board::{Gate, OpenGate};
use cs_safety::{SafetyFault, ksafe, safe};
use cs_schema::{Catalog, Cells, Loss};
use cs_store::{Fault, FileSet};
use std::alloc::Global;
use std::marker::Sync;
use std::thread::Threads;

/// Recovers the files that a loss takes from a store: the lost segments with their deltas and join indexes, and the
/// surviving join indexes into projections with a lost segment. Only the files of surviving segments are read. In each
/// round `workers` workers (1 to 64) share pieces of `cut` rows (1 to 1,048,576); neither number changes the answer.
///
/// Returns the first fault that applies: `Site`, `Unsafe`, `Missing` or `Damaged` of the first such file by name,
/// `Astray`, `Twice`, `Full`, `Misplaced`, `Misled`. `Memory` may take the place of any answer.
pub fn rebuild<R: Threads + Sync>(
    rt: &R,
    alloc: Global,
    catalog: &Catalog,
    files: &FileSet,
    loss: Loss,
    workers: u32,
    cut: u32,
) -> Result<FileSet, Fault>
    requires workers { (1 ≤ workers) × (workers ≤ 64) }
    requires cut { (1 ≤ cut) × (cut ≤ 1048576) }
    ensures answer { IsRebuildAnswer catalog.now (contents_of files.now) loss result }
    ensures clauses { RebuildClauses catalog.now (contents_of files.now) loss result }
{
    rebuild_gated(rt, alloc, catalog, files, loss, workers, cut, &OpenGate)
}

/// Recovers the files that a loss takes from a store, and tells the gate of each round as it opens and of each piece as
/// it begins.
///
/// The files and the faults are those of `rebuild`.
pub fn rebuild_gated<R: Threads + Sync, G: Gate + Sync>(
    rt: &R,
    alloc: Global,
    catalog: &Catalog,
    files: &FileSet,
    loss: Loss,
    workers: u32,
    cut: u32,
    gate: &G,
) -> Result<FileSet, Fault>
    requires workers { (1 ≤ workers) × (workers ≤ 64) }
    requires cut { (1 ≤ cut) × (cut ≤ 1048576) }
    ensures answer { IsRebuildAnswer catalog.now (contents_of files.now) loss result }
    ensures clauses { RebuildClauses catalog.now (contents_of files.now) loss result }
{
    let run = Run {
        rt,
        alloc,
        workers,
        cut,
        gate,
    };
    let shared = SharedFiles::Borrowed(files);
    rebuild_shared(&run, catalog, loss, SharedFiles::Borrowed(files), shared)
}

/// Recovers the files that a loss takes from a store, with less memory: the store's files are freed once they are read
/// and their digests are compared.
///
/// The files and the faults are those of `rebuild`.
pub fn rebuild_owned<R: Threads + Sync, G: Gate + Sync>(
    run: &Run<'_, R, G>,
    catalog: &Catalog,
    loss: Loss,
    files: FileSet,
) -> Result<FileSet, Fault>
    ensures answer { IsRebuildAnswer catalog.now (contents_of files) loss result }
    ensures clauses { RebuildClauses catalog.now (contents_of files) loss result }
{
    let _rules = catalog.projection_count();
    let _sites = loss.count();
    match SharedFiles::shared(run.alloc, files) {
        Ok((files, shared)) => rebuild_shared(run, catalog, loss, files, shared),
        Err(_) => Err(Fault::Memory),
    }
}

/// The answer of `rebuild`, given the files for two readers.
fn rebuild_shared<R: Threads + Sync, G: Gate + Sync>(
    run: &Run<'_, R, G>,
    catalog: &Catalog,
    loss: Loss,
    files: SharedFiles<'_>,
    shared: SharedFiles<'_>,
) -> Result<FileSet, Fault>
    requires held { (F : Files) × (shared_files files ≡ Some F) × (shared_files shared ≡ Some F) }
    ensures answer { (F : Files) → shared_files files.entry ≡ Some F → IsRebuildAnswer catalog.now (contents_of F) loss result }
    ensures clauses { (F : Files) → shared_files files.entry ≡ Some F → RebuildClauses catalog.now (contents_of F) loss result }
{
    let _rules = catalog.projection_count();
    let _sites = loss.count();
    if !catalog.has_sites(loss) {
        return Err(Fault::Site);
    }
    if !safe(catalog, loss) {
        return Err(Fault::Unsafe(loss));
    }
    let (mut files, mut shared) = (files, shared);
    let answered = match answer(run, catalog, loss, &mut files, &mut shared, Wanted::Files) {
        Ok(answered) => answered,
        Err(fault) => return Err(fault),
    };
    match answered {
        Answer::Files(files) => Ok(files),
        _ => unreachable!(),
    }
}

/// Checks a store, and returns the number of rows of its table if it is sound, and safe for losses of at most `k`
/// sites. In each round `workers` workers (1 to 64) share pieces of `cut` rows (1 to 1,048,576); neither number changes
/// the answer.
///
/// Returns the first fault that applies: `BadK`, `Unsafe` with the first loss that is not safe, then those of `rebuild`
/// for the empty loss. `Memory` may take the place of any answer.
pub fn check<R: Threads + Sync>(
    rt: &R,
    alloc: Global,
    catalog: &Catalog,
    files: &FileSet,
    k: u8,
    workers: u32,
    cut: u32,
) -> Result<u64, Fault>
    requires workers { (1 ≤ workers) × (workers ≤ 64) }
    requires cut { (1 ≤ cut) × (cut ≤ 1048576) }
    ensures answer { IsCheckAnswer catalog.now (contents_of files.now) k result }
    ensures clauses { CheckClauses catalog.now (contents_of files.now) k result }
{
    check_gated(rt, alloc, catalog, files, k, workers, cut, &OpenGate)
}

/// Checks a store, and tells the gate of each round as it opens and of each piece as it begins.
///
/// The number of rows and the faults are those of `check`.
pub fn check_gated<R: Threads + Sync, G: Gate + Sync>(
    rt: &R,
    alloc: Global,
    catalog: &Catalog,
    files: &FileSet,
    k: u8,
    workers: u32,
    cut: u32,
    gate: &G,
) -> Result<u64, Fault>
    requires workers { (1 ≤ workers) × (workers ≤ 64) }
    requires cut { (1 ≤ cut) × (cut ≤ 1048576) }
    ensures answer { IsCheckAnswer catalog.now (contents_of files.now) k result }
    ensures clauses { CheckClauses catalog.now (contents_of files.now) k result }
{
    let run = Run {
        rt,
        alloc,
        workers,
        cut,
        gate,
    };
    let shared = SharedFiles::Borrowed(files);
    check_shared(&run, catalog, k, SharedFiles::Borrowed(files), shared)
}

/// Checks a store, with less memory: its files are freed once they are read and their digests are compared.
///
/// The number of rows and the faults are those of `check`.
pub fn check_owned<R: Threads + Sync, G: Gate + Sync>(
    run: &Run<'_, R, G>,
    catalog: &Catalog,
    k: u8,
    files: FileSet,
) -> Result<u64, Fault>
    ensures answer { IsCheckAnswer catalog.now (contents_of files) k result }
    ensures clauses { CheckClauses catalog.now (contents_of files) k result }
{
    let _rules = catalog.projection_count();
    match SharedFiles::shared(run.alloc, files) {
        Ok((files, shared)) => check_shared(run, catalog, k, files, shared),
        Err(_) => Err(Fault::Memory),
    }
}

/// The answer of `check`, given the files for two readers.
fn check_shared<R: Threads + Sync, G: Gate + Sync>(
    run: &Run<'_, R, G>,
    catalog: &Catalog,
    k: u8,
    files: SharedFiles<'_>,
    shared: SharedFiles<'_>,
) -> Result<u64, Fault>
    requires held { (F : Files) × (shared_files files ≡ Some F) × (shared_files shared ≡ Some F) }
    ensures answer { (F : Files) → shared_files files.entry ≡ Some F → IsCheckAnswer catalog.now (contents_of F) k result }
    ensures clauses { (F : Files) → shared_files files.entry ≡ Some F → CheckClauses catalog.now (contents_of F) k result }
{
    let _rules = catalog.projection_count();
    if let Err(fault) = ksafe(catalog, k) {
        return Err(safety_refusal(fault));
    }
    let (mut files, mut shared) = (files, shared);
    let answered = match answer(
        run,
        catalog,
        Loss::none(),
        &mut files,
        &mut shared,
        Wanted::Count,
    ) {
        Ok(answered) => answered,
        Err(fault) => return Err(fault),
    };
    match answered {
        Answer::Count(rows) => Ok(rows),
        _ => unreachable!(),
    }
}

/// The fault of a catalog that is not safe.
fn safety_refusal(fault: SafetyFault) -> Fault
    ensures { result ≡ refusal_of fault }
{
    match fault {
        SafetyFault::BadK => Fault::BadK,
        SafetyFault::Unsafe(loss) => Fault::Unsafe(loss),
    }
}

/// The rows of the table that the survivors of a loss hold, by primary key, as a column of cells for each column of the
/// table. Only the files of surviving segments are read. If no site is lost, these are the rows of the whole store.
///
/// Returns the first fault that applies: `Site`, `Unsafe`, `Missing` or `Damaged` of the first such file by name,
/// `Astray`, `Twice`, `Full`, `Misplaced`, `Misled`. `Memory` may take the place of any answer.
pub fn table<R: Threads + Sync, G: Gate + Sync>(
    run: &Run<'_, R, G>,
    catalog: &Catalog,
    files: &FileSet,
    loss: Loss,
) -> Result<Vec<Cells>, Fault>
    ensures answer { IsTableAnswer catalog.now (contents_of files.now) loss result }
    ensures clauses { TableClauses catalog.now (contents_of files.now) loss result }
{
    let _rules = catalog.projection_count();
    let _sites = loss.count();
    if !catalog.has_sites(loss) {
        return Err(Fault::Site);
    }
    if !safe(catalog, loss) {
        return Err(Fault::Unsafe(loss));
    }
    let (mut held, mut shared) = (SharedFiles::Borrowed(files), SharedFiles::Borrowed(files));
    let answered = match answer(run, catalog, loss, &mut held, &mut shared, Wanted::Columns) {
        Ok(answered) => answered,
        Err(fault) => return Err(fault),
    };
    match answered {
        Answer::Columns(columns) => Ok(columns),
        _ => unreachable!(),
    }
}
