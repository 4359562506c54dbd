//! The verdict on the files of a store.
ghost use Rattle.std.specs.Prelude.{◌≡◌, ℕ, Option, IfOk, IfErr};
ghost use Rattle.std.specs.Option.{unwrap_or};
ghost use Rattle.cs_schema.specs.Losses.{Sites};
ghost use Rattle.cs_store.specs.FileSet.{contents_of};
ghost use Rattle.cs_recovery.specs.Claims.{IsCheckAnswer};
ghost use Rattle.cs_inspection.specs.BadFiles.{AreBadFiles};
ghost use Rattle.pinepolo_answers.specs.declared.checked.Verdict.TheVariants.{Fatal};
ghost use Rattle.cs_checking.specs.Checks.{IsChosen, HasFatal, IsFirstFatal, IsJudged};

use cs_design::{fatal_losses, greatest_k};
use cs_inspection::{Badness, bad_files};
use cs_rebuild::{Run, check_gated};
use cs_schema::{Catalog, FileName, Loss};
use cs_store::{Fault, FileSet};
use pinepolo_answers::Verdict;
use pinepolo_places::VerbError;
use pinepolo_progress::{Progress, Stage};
use std::alloc::Global;
use std::marker::Sync;
use std::thread::Threads;

/// How many sites may fail, whatever they are: the number that is asked for, or the greatest; an error where it is
/// above the greatest.
fn allowed(catalog: &Catalog, asked: Option<u8>) -> Result<u8, u8>
    ensures ok { IfOk result (IsChosen catalog.now asked) }
    ensures err { IfErr result (λ k. (k ≡ unwrap_or asked 0) × HasFatal catalog.now k) }
{
    match greatest_k(catalog, Loss::none()) {
        None => Err(asked.unwrap_or(0)),
        Some(greatest) => {
            let wanted = asked.unwrap_or(greatest);
            if wanted <= greatest {
                Ok(wanted)
            } else {
                Err(wanted)
            }
        }
    }
}

/// The verdict on a number of sites that is too high.
fn too_high(alloc: Global, catalog: &Catalog, k: u8) -> Result<Verdict, VerbError>
    requires { HasFatal catalog.now k }
    ensures { IfOk result (λ verdict. (loss : Sites) × (verdict ≡ Fatal k loss) × IsFirstFatal catalog.now loss) }
{
    let Ok(fatal) = fatal_losses(alloc, catalog, Loss::none()) else {
        return Err(VerbError::OutOfMemory);
    };
    match fatal.first() {
        Some(loss) => Ok(Verdict::Fatal { k, loss: *loss }),
        None => unreachable!(),
    }
}

/// The bad files of a store that was read.
fn look_at<R: Threads + Sync, G: Progress + Sync>(
    run: &Run<'_, R, G>,
    catalog: &Catalog,
    files: &FileSet,
    unreadable: &[FileName],
) -> Result<Vec<(FileName, Badness)>, VerbError>
    ensures { IfOk result (λ bad. AreBadFiles catalog.now (contents_of files.now) unreadable.now bad.items) }
{
    run.gate.reached(Stage::Inspecting);
    match bad_files(run.rt, run.alloc, catalog, files, unreadable) {
        Ok(bad) => Ok(bad),
        Err(_) => Err(VerbError::OutOfMemory),
    }
}

/// How many rows the files have as a store that is sound, or why they are none.
fn rows_of<R: Threads + Sync, G: Progress + Sync>(
    run: &Run<'_, R, G>,
    catalog: &Catalog,
    files: &FileSet,
) -> Result<u64, Fault>
    ensures { IsCheckAnswer catalog.now (contents_of files.now) 0 result }
{
    let Run {
        rt,
        alloc,
        workers,
        cut,
        gate,
    } = *run;
    check_gated(rt, alloc, catalog, files, 0, workers, cut, gate)
}

/// The bad files of a store that was read and of which any `k` sites may fail, and the verdict on it. No file of a sound
/// store is bad, so each is looked at once more only where it isn't sound.
fn judge_files<R: Threads + Sync, G: Progress + Sync>(
    run: &Run<'_, R, G>,
    catalog: &Catalog,
    files: &FileSet,
    unreadable: &[FileName],
    k: u8,
) -> Result<(Vec<(FileName, Badness)>, Verdict), VerbError>
    ensures { IfOk result (λ judged. (asked : Option ℕ) → IsChosen catalog.now asked k
        → IsJudged catalog.now (contents_of files.now) unreadable.now asked judged.0.items judged.1) }
{
    let _rules = catalog.projection_count();
    if !unreadable.is_empty() {
        return match look_at(run, catalog, files, unreadable) {
            Ok(bad) => Ok((bad, Verdict::BadFiles)),
            Err(error) => Err(error),
        };
    }
    let fault = match rows_of(run, catalog, files) {
        Ok(rows) => return Ok((Vec::new(run.alloc), Verdict::Sound { rows, k })),
        Err(Fault::Memory) => return Err(VerbError::OutOfMemory),
        Err(fault) => fault,
    };
    match look_at(run, catalog, files, unreadable) {
        Ok(bad) => {
            if bad.is_empty() {
                Ok((bad, Verdict::Unsound(fault)))
            } else {
                Ok((bad, Verdict::BadFiles))
            }
        }
        Err(error) => Err(error),
    }
}

/// The bad files of a store that was read, and the verdict on it.
pub fn judge<R: Threads + Sync, G: Progress + Sync>(
    run: &Run<'_, R, G>,
    catalog: &Catalog,
    files: &FileSet,
    unreadable: &[FileName],
    asked: Option<u8>,
) -> Result<(Vec<(FileName, Badness)>, Verdict), VerbError>
    ensures { IfOk result (λ judged. IsJudged catalog.now (contents_of files.now) unreadable.now asked judged.0.items judged.1) }
{
    let k = match allowed(catalog, asked) {
        Ok(k) => return judge_files(run, catalog, files, unreadable, k),
        Err(k) => k,
    };
    let verdict = match too_high(run.alloc, catalog, k) {
        Ok(verdict) => verdict,
        Err(error) => return Err(error),
    };
    match look_at(run, catalog, files, unreadable) {
        Ok(bad) => Ok((bad, verdict)),
        Err(error) => Err(error),
    }
}
