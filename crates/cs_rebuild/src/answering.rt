//! The way from the files of a store to an answer about its table, in parallel with the digests of the files.
ghost use Rattle.std.specs.Prelude.{◌≡◌, Some, IfOk};
ghost use Rattle.cs_store.specs.FileSet.{Files, contents_of};
ghost use Rattle.cs_safety.specs.Safety.{IsSafe};
ghost use Rattle.cs_rebuild.specs.Answers.{IsAnswer};
ghost use Rattle.cs_rebuild.specs.SharedFiles.{shared_files};
ghost use Rattle.cs_rebuild.specs.Reading.{AreDigests, resealed};

use crate::digests::least_unsealed;
use crate::endings::answer_survivors;
use crate::reading::read_bodies;
use crate::run::Run;
use crate::shared_files::SharedFiles;
use crate::sound_files::unless_bad;
use crate::wanted::{Answer, Wanted};
use cs_board::Gate;
use cs_schema::{Catalog, FileName, Loss};
use cs_store::Fault;
use std::alloc::AllocError;
use std::marker::Sync;
use std::thread::{Threads, join_mut};

/// The first surviving file by name with a wrong digest, if any. Releases the files.
fn compare_digests<R: Threads + Sync, G>(
    run: &Run<'_, R, G>,
    catalog: &Catalog,
    loss: Loss,
    files: &mut SharedFiles<'_>,
) -> Result<Option<FileName>, AllocError>
    requires held { (F : Files) × shared_files files.old ≡ Some F }
    ensures { IfOk result (λ unsealed. (F : Files) → shared_files files.old ≡ Some F → AreDigests catalog.now loss (contents_of F) unsealed) }
{
    let unsealed = least_unsealed(run, catalog, loss, files.files());
    files.release();
    unsealed
}

/// The answer from the bodies of the files that survive, whatever their digests are. Releases the files once they are
/// read.
fn answer_bodies<R: Threads + Sync, G: Gate + Sync>(
    run: &Run<'_, R, G>,
    catalog: &Catalog,
    loss: Loss,
    files: &mut SharedFiles<'_>,
    wanted: Wanted,
) -> Result<Answer, Fault>
    requires safe { IsSafe catalog.now loss }
    requires held { (F : Files) × shared_files files.old ≡ Some F }
    ensures { (F : Files) → shared_files files.old ≡ Some F → IsAnswer wanted catalog.now (resealed (contents_of F)) loss result }
{
    let read = read_bodies(run, catalog, loss, files.files());
    files.release();
    match read {
        Ok(survivors) => answer_survivors(run, catalog, loss, &survivors, wanted),
        Err(fault) => Err(fault),
    }
}

/// The first file with a wrong digest and, in parallel, the answer from the bodies. Hashing a file is sequential and
/// takes longer than reading it.
fn answer_beside<R: Threads + Sync, G: Gate + Sync>(
    run: &Run<'_, R, G>,
    catalog: &Catalog,
    loss: Loss,
    files: &mut SharedFiles<'_>,
    shared: &mut SharedFiles<'_>,
    wanted: Wanted,
) -> (Result<Option<FileName>, AllocError>, Result<Answer, Fault>)
    requires safe { IsSafe catalog.now loss }
    requires held { (F : Files) × (shared_files files.old ≡ Some F) × (shared_files shared.old ≡ Some F) }
    ensures digests { IfOk result.0 (λ unsealed. (F : Files) → shared_files files.old ≡ Some F
        → AreDigests catalog.now loss (contents_of F) unsealed) }
    ensures answer { (F : Files) → shared_files shared.old ≡ Some F
        → IsAnswer wanted catalog.now (resealed (contents_of F)) loss result.1 }
{
    // `join` guarantees nothing for a closure over a struct of references
    join_mut(
        run.rt,
        &mut || -> Result<Option<FileName>, AllocError>
            requires { (F : Files) × shared_files files.now ≡ Some F }
            ensures { IfOk result (λ unsealed. (F : Files) → shared_files files.entry.now ≡ Some F
                → AreDigests catalog.entry.now loss (contents_of F) unsealed) }
        { compare_digests(run, catalog, loss, files) },
        &mut || -> Result<Answer, Fault>
            requires { IsSafe catalog.now loss × ((F : Files) × shared_files shared.now ≡ Some F) }
            ensures { (F : Files) → shared_files shared.entry.now ≡ Some F
                → IsAnswer wanted catalog.entry.now (resealed (contents_of F)) loss result }
        { answer_bodies(run, catalog, loss, shared, wanted) },
    )
}

/// What is wanted of the table that survives a safe loss, or the first fault that applies. `files` and `shared` are the
/// same files, for two readers that release them.
pub fn answer<R: Threads + Sync, G: Gate + Sync>(
    run: &Run<'_, R, G>,
    catalog: &Catalog,
    loss: Loss,
    files: &mut SharedFiles<'_>,
    shared: &mut SharedFiles<'_>,
    wanted: Wanted,
) -> Result<Answer, Fault>
    requires safe { IsSafe catalog.now loss }
    requires held { (F : Files) × (shared_files files.old ≡ Some F) × (shared_files shared.old ≡ Some F) }
    ensures { (F : Files) → shared_files files.old ≡ Some F → IsAnswer wanted catalog.now (contents_of F) loss result }
{
    let _rules = catalog.projection_count();
    let (unsealed, answered) = answer_beside(run, catalog, loss, files, shared, wanted);
    unless_bad(unsealed, answered)
}
