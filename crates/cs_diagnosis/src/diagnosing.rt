//! The diagnosis of a store.
ghost use Rattle.std.specs.Prelude.{◌≤◌, IfOk, IfSome, List};
ghost use Rattle.cs_schema.specs.declared.file_name.FileName.{FileName as NameData};
ghost use Rattle.cs_store.specs.FileSet.{contents_of};
ghost use Rattle.cs_inspection.specs.BadFiles.{AreBadFiles};
ghost use Rattle.cs_inspection.specs.Laws.{AreAbsent};
ghost use Rattle.cs_schema.specs.FileNames.{FileContents};
ghost use Rattle.cs_rebuild.specs.Steps.{AreRead};
ghost use Rattle.cs_diagnosis.specs.Diagnoses.{IsDiagnosis};
ghost use Rattle.cs_diagnosis.specs.Forced.{AreTold, LacksFileOn};

use crate::Remains;
use crate::explaining::explain;
use crate::findings::{Explanation, Verdict};
use crate::forcing::bad_sites;
use crate::missing::{missing_files, others};
use crate::reaching::{Reach, reach_of};
use crate::summary::verdict_of;
use crate::tables::FoundTable;
use cs_inspection::{Badness, bad_files, bad_survivors};
use cs_rebuild::{Run, read_store};
use cs_schema::{Catalog, FileName, Loss};
use cs_store::{Fault, FileSet};
use pinepolo_progress::Progress;
use std::alloc::AllocError;
use std::marker::Sync;
use std::thread::Threads;

/// What is wrong with a store.
#[derive(Drop)]
pub struct Diagnosis {
    /// The bad files, in the order of their names.
    pub bad: Vec<(FileName, Badness)>,
    /// The sites of the bad files. Each explanation contains them.
    pub forced: Loss,
    /// The maximum number of sites of the losses that were tried, and the number of changed sites for which the result
    /// is certain.
    pub reach: Reach,
    /// The minimal accepted losses, fewest sites first, each with the index of its table.
    pub explanations: Vec<Explanation>,
    /// The distinct tables of the explanations, in the order in which they were found.
    pub tables: Vec<FoundTable>,
    pub verdict: Verdict,
}

/// The diagnosis of a store whose bad files are known and whose other files were read.
fn diagnose_read<R: Threads + Sync, G: Progress + Sync>(
    run: &Run<'_, R, G>,
    remains: &Remains<'_>,
    bad: Vec<(FileName, Badness)>,
    at_most: Option<u8>,
) -> Result<Diagnosis, AllocError>
    requires at_most { IfSome at_most (λ n. n ≤ 16) }
    requires read { (F : FileContents) × (unreadable : List NameData)
        × AreRead remains.now.catalog.now F remains.now.first remains.now.survivors.now
        × AreTold remains.now.catalog.now F unreadable bad.items remains.now.first }
    ensures { IfOk result (λ d. (F : FileContents) (unreadable : List NameData)
        → AreRead remains.now.catalog.now F remains.now.first remains.now.survivors.now
        → AreTold remains.now.catalog.now F unreadable bad.items remains.now.first
        → IsDiagnosis remains.now.catalog.now F unreadable at_most d) }
{
    let forced = remains.first;
    let _sites = forced.count();
    let reach = reach_of(remains.catalog, forced, at_most);
    match explain(run, remains, reach.at_most) {
        Ok(found) => Ok(Diagnosis {
            bad,
            forced,
            reach,
            verdict: verdict_of(found.explanations.as_slice(), found.tables.len()),
            explanations: found.explanations,
            tables: found.tables,
        }),
        Err(refused) => Err(refused),
    }
}

/// The diagnosis of a store whose bad files are known.
fn diagnose_bad<R: Threads + Sync, G: Progress + Sync>(
    run: &Run<'_, R, G>,
    catalog: &Catalog,
    files: &FileSet,
    bad: Vec<(FileName, Badness)>,
    at_most: Option<u8>,
) -> Result<Diagnosis, AllocError>
    requires at_most { IfSome at_most (λ n. n ≤ 16) }
    requires bad { (unreadable : List NameData) × AreAbsent (contents_of files.now) unreadable
        × AreBadFiles catalog.now (contents_of files.now) unreadable bad.items }
    ensures { IfOk result (λ d. (unreadable : List NameData) → AreAbsent (contents_of files.now) unreadable
        → AreBadFiles catalog.now (contents_of files.now) unreadable bad.items
        → IsDiagnosis catalog.now (contents_of files.now) unreadable at_most d) }
{
    let first = bad_sites(catalog, bad.as_slice());
    match read_store(run, catalog, first, files) {
        Ok(survivors) => {
            let remains = Remains {
                catalog,
                first,
                survivors: &survivors,
            };
            diagnose_read(run, &remains, bad, at_most)
        }
        Err(fault) => match fault {
            Fault::Memory => Err(AllocError),
            _ => unreachable!(),
        },
    }
}

/// The diagnosis of a store in which all files are read and good, except on the sites with missing files. Only the
/// files of these sites are inspected.
fn diagnose_beside<R: Threads + Sync, G: Progress + Sync>(
    run: &Run<'_, R, G>,
    remains: &Remains<'_>,
    files: &FileSet,
    unreadable: &[FileName],
    at_most: Option<u8>,
) -> Result<Diagnosis, AllocError>
    requires at_most { IfSome at_most (λ n. n ≤ 16) }
    requires absent { AreAbsent (contents_of files.now) unreadable.now }
    requires read { AreRead remains.now.catalog.now (contents_of files.now) remains.now.first remains.now.survivors.now }
    requires missing { LacksFileOn remains.now.catalog.now (contents_of files.now) remains.now.first }
    ensures { IfOk result (IsDiagnosis remains.now.catalog.now (contents_of files.now) unreadable.now at_most) }
{
    let rest = others(remains.first);
    match bad_survivors(run.rt, run.alloc, remains.catalog, files, unreadable, rest) {
        Ok(bad) => diagnose_read(run, remains, bad, at_most),
        Err(refused) => Err(refused),
    }
}

/// Diagnoses a store: its bad files, the losses of at most `at_most` sites that explain the rest, and whether these
/// agree on one table.
///
/// `at_most` is at most 16. If it is `None`, losses of as many sites are tried as are needed to correct the maximum
/// number of changed sites, and of at least one. `unreadable` has the names at which the device failed; none of them is
/// among the files. Fails only if memory is refused.
pub fn diagnose<R: Threads + Sync, G: Progress + Sync>(
    run: &Run<'_, R, G>,
    catalog: &Catalog,
    files: &FileSet,
    unreadable: &[FileName],
    at_most: Option<u8>,
) -> Result<Diagnosis, AllocError>
    requires at_most { IfSome at_most (λ n. n ≤ 16) }
    requires absent { AreAbsent (contents_of files.now) unreadable.now }
    ensures { IfOk result (IsDiagnosis catalog.now (contents_of files.now) unreadable.now at_most) }
{
    let missing = missing_files(run.alloc, catalog, files)?;
    let first = bad_sites(catalog, missing.as_slice());
    match read_store(run, catalog, first, files) {
        Ok(survivors) => {
            let remains = Remains {
                catalog,
                first,
                survivors: &survivors,
            };
            diagnose_beside(run, &remains, files, unreadable, at_most)
        }
        Err(fault) => match fault {
            Fault::Memory => Err(AllocError),
            _ => diagnose_damaged(run, catalog, files, unreadable, at_most),
        },
    }
}

/// The diagnosis of a store with a damaged file. Each file is inspected by itself.
fn diagnose_damaged<R: Threads + Sync, G: Progress + Sync>(
    run: &Run<'_, R, G>,
    catalog: &Catalog,
    files: &FileSet,
    unreadable: &[FileName],
    at_most: Option<u8>,
) -> Result<Diagnosis, AllocError>
    requires at_most { IfSome at_most (λ n. n ≤ 16) }
    requires absent { AreAbsent (contents_of files.now) unreadable.now }
    ensures { IfOk result (IsDiagnosis catalog.now (contents_of files.now) unreadable.now at_most) }
{
    match bad_files(run.rt, run.alloc, catalog, files, unreadable) {
        Ok(bad) => diagnose_bad(run, catalog, files, bad, at_most),
        Err(refused) => Err(refused),
    }
}
