//! Reading the bodies of the files that survive.
ghost use Rattle.std.specs.Prelude.{◌≡◌, ◌<◌, ◌≤◌, ℕ, length, map, IfOk, IfErr};
ghost use Rattle.cs_schema.specs.CatalogData.{HasSegment};
ghost use Rattle.cs_schema.specs.CatalogRules.{IsCatalog};
ghost use Rattle.cs_schema.specs.FileNames.{FileContents};
ghost use Rattle.cs_schema.specs.Lists.{IsIn};
ghost use Rattle.cs_segment.specs.SegmentData.{kinds_at};
ghost use Rattle.cs_store.specs.FileSet.{contents_of};
ghost use Rattle.cs_store.specs.Fault.{MemoryOr};
ghost use Rattle.cs_store.specs.declared.fault.Fault.{Fault as FaultData};
ghost use Rattle.cs_board.specs.Pieces.{AnswersInOrder};
ghost use Rattle.cs_recovery.proofs.CatalogFacts.{IsCatalog-prop};
ghost use Rattle.cs_recovery.specs.Verdicts.{surviving_segments};
ghost use Rattle.cs_schema.specs.Losses.{Sites};
ghost use Rattle.cs_rebuild.specs.Rounds.{IsFirstFault};
ghost use Rattle.cs_rebuild.specs.Steps.{AreRead, IsBadFile};
ghost use Rattle.cs_rebuild.specs.Reading.{FilesFaultAt, FilesAnswerAt, AreFilesOf, IsKept, AreOthersKept, joins_of, resealed};
ghost use Rattle.cs_rebuild.specs.WorkLaws.{one_files_fault};

use crate::files_of::{SegmentFiles, SegmentSource};
use crate::rounds::Tasks;
use crate::run::Run;
use crate::segment_lists::surviving_segments;
use cs_board::{Gate, Round};
use cs_rows::Survivors;
use cs_schema::{Catalog, Loss};
use cs_store::{Fault, FileSet};
use std::alloc::Global;
use std::marker::Sync;
use std::thread::Threads;

/// Reads the files of some segments.
#[derive(Drop)]
struct FilesWork<'w, 'a, R> {
    rt: &'w R,
    alloc: Global,
    catalog: &'a Catalog,
    files: &'w FileSet,
    workers: u32,
    segments: &'w [(u16, u16)],
    ghost rules: { IsCatalog catalog.now } by { IsCatalog-prop catalog.now },
    ghost few: { length segments.now ≤ 128 },
    ghost exist: { (a : ℕ × ℕ) → IsIn a segments.now → HasSegment catalog.now a.0 a.1 },
}

impl<R: Threads> Tasks for FilesWork<'_, '_, R> {
    type Out = SegmentFiles;

    ghost tasks = { λ work. length work.segments.now };

    ghost fault_at = { λ work i fault. FilesFaultAt work.catalog.now (resealed (contents_of work.files.now)) work.segments.now i fault };

    ghost answers = { λ work i out. FilesAnswerAt work.catalog.now (resealed (contents_of work.files.now)) work.segments.now i out };

    fn count(&self) -> u32 {
        self.segments.len() as u32
    }

    fn task(&self, i: u32) -> Result<SegmentFiles, Fault> {
        let (p, s) = self.segments[i as usize];
        let left = self.segments.len() - i as usize;
        let source = SegmentSource {
            alloc: self.alloc,
            catalog: self.catalog,
            files: self.files,
            // before that, the other workers have segments of their own
            in_threads: left <= self.workers as usize,
            p,
            s,
        };
        match source.read(self.rt) {
            Ok(files) => Ok(files),
            Err(fault) => Err(fault),
        }
    }

    ghost one_fault = { λ work i f g below a b. one_files_fault work.catalog.now
        (resealed (contents_of work.files.now)) work.segments.now i f g a b };
}

impl<'a, R> FilesWork<'_, 'a, R> {
    /// Stores what the files of all segments hold.
    fn keep_all(&self, all: Vec<SegmentFiles>) -> Result<Survivors<'a>, Fault>
        requires count { length all.items ≡ length self.now.segments.now }
        requires each { AnswersInOrder (FilesAnswerAt self.now.catalog.now
            (resealed (contents_of self.now.files.now)) self.now.segments.now) all.items }
        ensures ok { IfOk result (λ kept. (L : Sites) → ((a : ℕ × ℕ)
            → IsIn a (surviving_segments self.now.catalog.now L) → IsIn a self.now.segments.now)
            → AreRead self.now.catalog.now (resealed (contents_of self.now.files.now)) L kept) }
        ensures err { IfErr result (λ fault. fault ≡ FaultData.Memory) }
    {
        let mut survivors = match Survivors::new(self.alloc, self.catalog) {
            Ok(survivors) => survivors,
            Err(_) => return Err(Fault::Memory),
        };
        let mut all = all;
        while let Some(held) = all.pop() {
            let (p, s) = self.segments[all.len()];
            keep(&mut survivors, p, s, held);
        }
        Ok(survivors)
    }
}

/// What the bodies of the files of some segments hold, or the fault of the first segment with a bad body.
fn read_segments<'a, R: Threads + Sync, G: Gate + Sync>(
    run: &Run<'_, R, G>,
    catalog: &'a Catalog,
    files: &FileSet,
    segments: &[(u16, u16)],
) -> Result<Survivors<'a>, Fault>
    requires few { length segments.now ≤ 128 }
    requires exist { (a : ℕ × ℕ) → IsIn a segments.now → HasSegment catalog.now a.0 a.1 }
    ensures ok { IfOk result (λ kept. (L : Sites) → ((a : ℕ × ℕ) → IsIn a (surviving_segments catalog.now L)
        → IsIn a segments.now) → AreRead catalog.now (resealed (contents_of files.now)) L kept) }
    ensures err { IfErr result (λ fault. MemoryOr fault (IsFirstFault
        (FilesFaultAt catalog.now (resealed (contents_of files.now)) segments.now) (length segments.now) fault)) }
{
    let _rules = catalog.projection_count();
    let work = FilesWork {
        rt: run.rt,
        alloc: run.alloc,
        catalog,
        files,
        workers: run.workers,
        segments,
    };
    match run.round(Round::Files, &work) {
        Ok(all) => work.keep_all(all),
        Err(fault) => Err(fault),
    }
}

/// What the bodies of the files that survive a loss hold, whatever their digests are, or the fault of the first bad one
/// by name.
pub fn read_bodies<'a, R: Threads + Sync, G: Gate + Sync>(
    run: &Run<'_, R, G>,
    catalog: &'a Catalog,
    loss: Loss,
    files: &FileSet,
) -> Result<Survivors<'a>, Fault>
    ensures ok { IfOk result (AreRead catalog.now (resealed (contents_of files.now)) loss) }
    ensures bad { IfErr result (λ fault. MemoryOr fault (IsBadFile catalog.now (resealed (contents_of files.now)) loss fault)) }
{
    match surviving_segments(run.alloc, catalog, loss) {
        Ok(segments) => read_segments(run, catalog, files, segments.as_slice()),
        Err(_) => Err(Fault::Memory),
    }
}

/// Stores what the files of one segment hold.
fn keep(survivors: &mut Survivors<'_>, p: u16, s: u16, held: SegmentFiles)
    requires exists { HasSegment survivors.old.catalog p s }
    requires kinds { held.image.kinds ≡ kinds_at survivors.old.catalog p }
    requires targets { map (λ j. j.0) held.joins.items ≡ joins_of survivors.old.catalog p }
    ensures catalog { survivors.new.catalog ≡ survivors.old.catalog }
    ensures kept { (F : FileContents) → AreFilesOf survivors.old.catalog F (p, s) held → IsKept survivors.old.catalog F survivors.new (p, s) }
    ensures others { AreOthersKept survivors.old (p, s) survivors.new }
{
    let SegmentFiles { image, joins } = held;
    survivors.put_image(p as usize, s as usize, image);
    let mut joins = joins;
    while let Some((q, join)) = joins.pop() {
        survivors.put_join(p as usize, s as usize, q as usize, join);
    }
}
