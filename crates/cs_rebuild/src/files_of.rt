//! Reading the bodies of one segment's files.
ghost use Rattle.std.specs.Prelude.{◌≡◌, ℕ, None, Some, Err, List, map, IfOk, IfErr};
ghost use Rattle.cs_schema.specs.CatalogData.{HasSegment};
ghost use Rattle.cs_schema.specs.CatalogRules.{IsCatalog};
ghost use Rattle.cs_schema.specs.Lists.{IsIn};
ghost use Rattle.cs_schema.specs.declared.file_name.FileName.{FileName as NameData};
ghost use Rattle.cs_store.specs.declared.fault.Fault.{Fault as FaultData};
ghost use Rattle.cs_store.specs.FileSet.{contents_of};
ghost use Rattle.cs_store.specs.Fault.{MemoryOr};
ghost use Rattle.cs_jix.specs.JoinIndex.{Place};
ghost use Rattle.cs_recovery.specs.Contents.{IsJoinOf};
ghost use Rattle.cs_segment.specs.SegmentData.{IsSegmentOf};
ghost use Rattle.cs_segment.specs.SegmentFile.{Base, IsSegmentFile, sealed};
ghost use Rattle.cs_rebuild.specs.Reading.{file_refusal, joins_of, resealed};
ghost use Rattle.cs_rebuild.specs.Reading.{AreFilesOf, AreSoundFiles, IsFirstBadJoin, IsFirstBadOf, IsKindedImageOf};

use crate::thresholds::WORTH_THREADS;
use cs_delta::{Delta, Image, merge_owned, read_delta_text};
use cs_jix::{JoinIndex, read_jix_text};
use cs_schema::{Catalog, FileName};
use cs_segment::fault::FileFault;
use cs_segment::seal::DIGEST;
use cs_segment::{Segment, par_read_text, read_text};
use cs_store::{Fault, FileSet};
use std::alloc::Global;
use std::thread::{Threads, join_mut};

/// The body of the file under a name: all except the digest at its end.
fn body_of(files: &FileSet, name: FileName) -> Result<&[u8], Fault>
    ensures ok { IfOk result (λ body. resealed (contents_of files.now) name ≡ Some (sealed body.now)) }
    ensures err { IfErr result (λ fault. (resealed (contents_of files.now) name ≡ None) × (fault ≡ FaultData.Missing name)) }
{
    match files.get(name) {
        Some(bytes) => Ok(&bytes[..bytes.len().saturating_sub(DIGEST)]),
        None => Err(Fault::Missing(name)),
    }
}

/// The fault of a store in which this file cannot be read.
fn refusal(name: FileName, fault: FileFault) -> Fault
    ensures { result ≡ file_refusal name fault }
{
    match fault {
        FileFault::Memory => Fault::Memory,
        FileFault::Damaged => Fault::Damaged(name),
    }
}

/// What the files of a segment hold: its image, and its join indexes with the numbers of their targets.
#[derive(Drop)]
pub struct SegmentFiles {
    pub image: Image,
    pub joins: Vec<(u16, JoinIndex)>,
}

/// The files of one segment, to be read.
#[derive(Clone, Copy)]
pub(crate) struct SegmentSource<'a> {
    pub(crate) alloc: Global,
    pub(crate) catalog: &'a Catalog,
    pub(crate) files: &'a FileSet,
    /// Whether several threads may read a large segment file.
    pub(crate) in_threads: bool,
    pub(crate) p: u16,
    pub(crate) s: u16,
    ghost exists: { HasSegment catalog.now p s },
}

impl SegmentSource<'_> {
    ghost use Rattle.cs_rebuild.specs.SegmentSources.{AreOtherResults, IsBaseResult, IsFileRefusal, ReadsBase, ReadsChanges, bodies_of};

    /// The name of the segment file.
    fn base_name(&self) -> FileName
        ensures { result ≡ NameData.Seg self.now.p self.now.s }
    {
        FileName::Seg {
            p: self.p,
            s: self.s,
        }
    }

    /// The name of the delta.
    fn delta_name(&self) -> FileName
        ensures { result ≡ NameData.Del self.now.p self.now.s }
    {
        FileName::Del {
            p: self.p,
            s: self.s,
        }
    }

    /// The segment whose file has this body.
    fn segment_of<R: Threads>(&self, rt: &R, body: &[u8]) -> Result<Segment, FileFault>
        ensures found { IfOk result (IsSegmentOf self.now.catalog.now self.now.p self.now.s (sealed body.now)) }
        ensures refused { result ≡ Err FileFault.Damaged → (b : Base)
            → IsSegmentFile self.now.catalog.now self.now.p self.now.s (sealed body.now) b → ⊥ }
        ensures only { IfOk result (λ segment. (b : Base) → IsSegmentFile self.now.catalog.now self.now.p
            self.now.s (sealed body.now) b → b ≡ segment.base) }
    {
        if self.in_threads && body.len() >= WORTH_THREADS {
            return par_read_text(rt, self.alloc, self.catalog, self.p, self.s, body);
        }
        read_text(self.alloc, self.catalog, self.p, self.s, body)
    }

    /// Reads the segment file.
    fn read_base<R: Threads>(&self, rt: &R) -> Result<Segment, Fault>
        ensures ok { IfOk result (ReadsBase self.now) }
        ensures err { IfErr result (IsFileRefusal self.now (NameData.Seg self.now.p self.now.s)) }
    {
        let name = self.base_name();
        let body = match body_of(self.files, name) {
            Ok(body) => body,
            Err(fault) => return Err(fault),
        };
        match self.segment_of(rt, body) {
            Ok(segment) => Ok(segment),
            Err(fault) => Err(refusal(name, fault)),
        }
    }

    /// Reads the delta.
    fn read_changes(&self) -> Result<Delta, Fault>
        ensures ok { IfOk result (ReadsChanges self.now) }
        ensures err { IfErr result (IsFileRefusal self.now (NameData.Del self.now.p self.now.s)) }
    {
        let name = self.delta_name();
        let body = match body_of(self.files, name) {
            Ok(body) => body,
            Err(fault) => return Err(fault),
        };
        match read_delta_text(self.alloc, self.catalog, self.p, self.s, body) {
            Ok(delta) => Ok(delta),
            Err(fault) => Err(refusal(name, fault)),
        }
    }

    /// Reads the join index to a projection.
    fn read_join(&self, q: u16) -> Result<JoinIndex, Fault>
        ensures ok { IfOk result (IsJoinOf (bodies_of self.now) self.now.p self.now.s q) }
        ensures err { IfErr result (IsFileRefusal self.now (NameData.Jix self.now.p self.now.s q)) }
    {
        let name = FileName::Jix {
            p: self.p,
            s: self.s,
            q,
        };
        let body = match body_of(self.files, name) {
            Ok(body) => body,
            Err(fault) => return Err(fault),
        };
        match read_jix_text(self.alloc, self.p, self.s, q, body) {
            Ok(join) => Ok(join),
            Err(fault) => Err(refusal(name, fault)),
        }
    }

    /// The image of the segment. A delta that does not fit its segment is damaged.
    fn merge_image(&self, segment: Segment, delta: &Delta) -> Result<Image, Fault>
        requires base { ReadsBase self.now segment }
        requires changes { ReadsChanges self.now delta.now }
        requires rules { IsCatalog self.now.catalog.now }
        ensures ok { IfOk result (IsKindedImageOf self.now.catalog.now (bodies_of self.now) self.now.p self.now.s) }
        ensures err { IfErr result (IsFileRefusal self.now (NameData.Del self.now.p self.now.s)) }
    {
        match merge_owned(self.alloc, segment, delta) {
            Ok(image) => Ok(image),
            Err(fault) => Err(refusal(self.delta_name(), fault)),
        }
    }

    /// The join indexes, with their targets.
    fn read_joins(&self) -> Result<Vec<(u16, JoinIndex)>, Fault>
        ensures targets { IfOk result (λ joins. map (λ j. j.0) joins.items ≡ joins_of self.now.catalog.now self.now.p) }
        ensures joins { IfOk result (λ joins. (j : ℕ × List Place) → IsIn j joins.items
            → IsJoinOf (bodies_of self.now) self.now.p self.now.s j.0 j.1) }
        ensures err { IfErr result (λ fault. MemoryOr fault (IsFirstBadJoin self.now.catalog.now (bodies_of self.now) self.now.p self.now.s fault)) }
        ensures rules { IsCatalog self.now.catalog.now }
    {
        let mut joins = Vec::new(self.alloc);
        for q in 0..self.catalog.projection_count() {
            if !self.catalog.has_join(self.p, q) {
                continue;
            }
            let join = match self.read_join(q) {
                Ok(join) => join,
                Err(fault) => return Err(fault),
            };
            match joins.push((q, join)) {
                Ok(()) => {}
                Err(_) => return Err(Fault::Memory),
            }
        }
        Ok(joins)
    }

    /// Reads the delta and the join indexes, each whether or not the other can be read.
    fn read_others(&self) -> (Result<Delta, Fault>, Result<Vec<(u16, JoinIndex)>, Fault>)
        ensures others { AreOtherResults self.now result }
        ensures rules { IsCatalog self.now.catalog.now }
    {
        (self.read_changes(), self.read_joins())
    }

    /// Whether the segment file is large enough for several threads.
    fn is_large(&self) -> bool {
        match self.files.get(self.base_name()) {
            Some(bytes) => bytes.len() >= WORTH_THREADS,
            None => false,
        }
    }

    /// Reads the files, each whether or not another can be read. The delta and the join indexes may be read in parallel
    /// with a large segment file.
    fn read_each<R: Threads>(
        &self,
        rt: &R,
    ) -> (
        (Result<Delta, Fault>, Result<Vec<(u16, JoinIndex)>, Fault>),
        Result<Segment, Fault>,
    )
        ensures others { AreOtherResults self.now result.0 }
        ensures base { IsBaseResult self.now result.1 }
        ensures rules { IsCatalog self.now.catalog.now }
    {
        if !self.in_threads || !self.is_large() {
            let base = self.read_base(rt);
            return (self.read_others(), base);
        }
        // `join` guarantees nothing for a closure over a struct of references
        join_mut(
            rt,
            &mut || -> (Result<Delta, Fault>, Result<Vec<(u16, JoinIndex)>, Fault>)
                ensures others { AreOtherResults self.entry.now result }
                ensures rules { IsCatalog self.entry.now.catalog.now }
            { self.read_others() },
            &mut || -> Result<Segment, Fault>
                ensures { IsBaseResult self.entry.now result }
            { self.read_base(rt) },
        )
    }

    /// What the files hold, or the fault of the first bad one by name.
    pub(crate) fn read<R: Threads>(&self, rt: &R) -> Result<SegmentFiles, Fault>
        ensures sound { IfOk result (λ _. AreSoundFiles self.now.catalog.now (bodies_of self.now) (self.now.p, self.now.s)) }
        ensures ok { IfOk result (AreFilesOf self.now.catalog.now (bodies_of self.now) (self.now.p, self.now.s)) }
        ensures err { IfErr result (λ fault. MemoryOr fault (IsFirstBadOf self.now.catalog.now (bodies_of self.now) (self.now.p, self.now.s) fault)) }
    {
        let ((delta, joins), segment) = self.read_each(rt);
        let segment = match segment {
            Ok(segment) => segment,
            Err(fault) => return Err(fault),
        };
        let delta = match delta {
            Ok(delta) => delta,
            Err(fault) => return Err(fault),
        };
        let image = match self.merge_image(segment, &delta) {
            Ok(image) => image,
            Err(fault) => return Err(fault),
        };
        match joins {
            Ok(joins) => Ok(SegmentFiles { image, joins }),
            Err(fault) => Err(fault),
        }
    }
}
