//! Whether bytes are a file of their name.
ghost use Rattle.std.specs.Prelude.{◌≡◌, ◌<◌, length, Some, IfOk, MatchBool, MatchOption};
ghost use Rattle.cs_schema.specs.CatalogData.{HasSegment};
ghost use Rattle.cs_schema.specs.FileNames.{HasName};
ghost use Rattle.cs_schema.specs.declared.file_name.FileName.{FileName as NameData};
ghost use Rattle.cs_segment.specs.SegmentData.{kinds_at};
ghost use Rattle.cs_segment.specs.SegmentFile.{IsBase};
ghost use Rattle.cs_delta.specs.DeltaFile.{IsDelta, CanMerge};
ghost use Rattle.cs_store.specs.FileSet.{contents_of};
ghost use Rattle.cs_inspection.specs.BadFiles.{IsFileOf, IsDamaged, IsUndamaged};
ghost use Rattle.cs_inspection.specs.Held.{HoldsSegment, HoldsNoSegment, HoldsDelta, HoldsNoDelta, HasSoundSegment, HasNoSegment};

use cs_delta::{Delta, merge_owned, read_delta};
use cs_jix::read_jix;
use cs_schema::{Catalog, FileName};
use cs_segment::{FileFault, Segment, par_read_segment};
use cs_store::FileSet;
use std::alloc::{AllocError, Global};
use std::thread::Threads;

/// A store whose files are inspected.
#[derive(Drop)]
pub struct Inspector<'a, R> {
    pub rt: &'a R,
    pub alloc: Global,
    pub catalog: &'a Catalog,
    pub files: &'a FileSet,
}

impl<R: Threads> Inspector<'_, R> {
    /// The segment in the bytes, if they are the file of this segment.
    fn segment_in(&self, p: u16, s: u16, bytes: &[u8]) -> Result<Option<Segment>, AllocError>
        requires { HasSegment self.now.catalog.now p s }
        ensures { IfOk result (λ found. MatchOption found (HoldsNoSegment self.now.catalog.now p s bytes.now)
            (HoldsSegment self.now.catalog.now p s bytes.now)) }
    {
        match par_read_segment(self.rt, self.alloc, self.catalog, p, s, bytes) {
            Ok(segment) => Ok(Some(segment)),
            Err(FileFault::Damaged) => Ok(None),
            Err(FileFault::Memory) => Err(AllocError),
        }
    }

    /// The delta in the bytes, if they are the file of this delta.
    fn delta_in(&self, p: u16, s: u16, bytes: &[u8]) -> Result<Option<Delta>, AllocError>
        requires { HasSegment self.now.catalog.now p s }
        ensures { IfOk result (λ found. MatchOption found (HoldsNoDelta self.now.catalog.now p s bytes.now)
            (HoldsDelta self.now.catalog.now p s bytes.now)) }
    {
        match read_delta(self.alloc, self.catalog, p, s, bytes) {
            Ok(delta) => Ok(Some(delta)),
            Err(FileFault::Damaged) => Ok(None),
            Err(FileFault::Memory) => Err(AllocError),
        }
    }

    /// Whether the bytes are a segment file of this name.
    fn is_segment(&self, p: u16, s: u16, bytes: &[u8]) -> Result<bool, AllocError>
        requires { HasSegment self.now.catalog.now p s }
        ensures { IfOk result (λ is. MatchBool is (IsFileOf self.now.catalog.now (NameData.Seg p s) bytes.now)
            (¬ IsFileOf self.now.catalog.now (NameData.Seg p s) bytes.now)) }
    {
        match self.segment_in(p, s, bytes) {
            Ok(Some(_)) => Ok(true),
            Ok(None) => Ok(false),
            Err(refused) => Err(refused),
        }
    }

    /// Whether the bytes are a join index file of this name.
    fn is_join(&self, p: u16, s: u16, q: u16, bytes: &[u8]) -> Result<bool, AllocError>
        ensures { IfOk result (λ is. MatchBool is (IsFileOf self.now.catalog.now (NameData.Jix p s q) bytes.now)
            (¬ IsFileOf self.now.catalog.now (NameData.Jix p s q) bytes.now)) }
    {
        let _catalog = self.catalog;
        match read_jix(self.alloc, p, s, q, bytes) {
            Ok(_) => Ok(true),
            Err(FileFault::Damaged) => Ok(false),
            Err(FileFault::Memory) => Err(AllocError),
        }
    }

    /// The segment under its name, if its file is sound by itself.
    fn sound_segment(&self, p: u16, s: u16) -> Result<Option<Segment>, AllocError>
        requires { HasSegment self.now.catalog.now p s }
        ensures { IfOk result (λ found. MatchOption found (HasNoSegment self.now.catalog.now (contents_of self.now.files.now) p s)
            (HasSoundSegment self.now.catalog.now (contents_of self.now.files.now) p s)) }
    {
        match self.files.get(FileName::Seg { p, s }) {
            Some(bytes) => self.segment_in(p, s, bytes),
            None => Ok(None),
        }
    }

    /// Whether the bytes are a delta file of this name that merges with its segment, if that is sound by itself.
    fn is_delta(&self, p: u16, s: u16, bytes: &[u8]) -> Result<bool, AllocError>
        requires exists { HasSegment self.now.catalog.now p s }
        requires there { contents_of self.now.files.now (NameData.Del p s) ≡ Some bytes.now }
        ensures { IfOk result (λ is. MatchBool is (IsUndamaged self.now.catalog.now (contents_of self.now.files.now) (NameData.Del p s) bytes.now)
            (IsDamaged self.now.catalog.now (contents_of self.now.files.now) (NameData.Del p s) bytes.now)) }
    {
        let delta = match self.delta_in(p, s, bytes) {
            Ok(Some(delta)) => delta,
            Ok(None) => return Ok(false),
            Err(refused) => return Err(refused),
        };
        match self.sound_segment(p, s) {
            Ok(Some(segment)) => self.can_merge(p, segment, &delta),
            Ok(None) => Ok(true),
            Err(refused) => Err(refused),
        }
    }

    /// Whether a segment and a delta of the same projection merge.
    fn can_merge(&self, p: u16, segment: Segment, delta: &Delta) -> Result<bool, AllocError>
        requires exists { p < length self.now.catalog.now.projections }
        requires base { IsBase self.now.catalog.now p segment.base }
        requires kinds { segment.kinds ≡ kinds_at self.now.catalog.now p }
        requires delta { IsDelta self.now.catalog.now p delta.now }
        ensures { IfOk result (λ can. MatchBool can (CanMerge segment.base delta.now) (¬ CanMerge segment.base delta.now)) }
    {
        let _width = self.catalog.width(p);
        match merge_owned(self.alloc, segment, delta) {
            Ok(_) => Ok(true),
            Err(FileFault::Damaged) => Ok(false),
            Err(FileFault::Memory) => Err(AllocError),
        }
    }

    /// Whether the bytes under a name are a file of that name. A delta must also merge with its segment, if that is
    /// sound by itself.
    pub fn is_undamaged(&self, name: FileName, bytes: &[u8]) -> Result<bool, AllocError>
        requires name { HasName self.now.catalog.now name }
        requires there { contents_of self.now.files.now name ≡ Some bytes.now }
        ensures { IfOk result (λ is. MatchBool is (IsUndamaged self.now.catalog.now (contents_of self.now.files.now) name bytes.now)
            (IsDamaged self.now.catalog.now (contents_of self.now.files.now) name bytes.now)) }
    {
        match name {
            FileName::Seg { p, s } => self.is_segment(p, s, bytes),
            FileName::Del { p, s } => self.is_delta(p, s, bytes),
            FileName::Jix { p, s, q } => self.is_join(p, s, q, bytes),
        }
    }
}
