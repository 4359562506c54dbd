//! The surviving segments of a store that have been read.
ghost use Rattle.std.specs.Prelude.{◌≡◌, ◌<◌, length, replicate, slice_index_or, IfOk, IfSome, None, Some, List, [], slice_set, MatchOption};
ghost use Rattle.cs_delta.specs.KindedImage.{KindedImage};
ghost use Rattle.cs_jix.specs.JoinIndex.{Place};
ghost use Rattle.cs_schema.specs.CatalogData.{segments};
ghost use Rattle.cs_segment.specs.SegmentData.{kinds_at};
ghost use Rattle.cs_rows.specs.Survivors.{images_of, image_at, join_at, no_survivors, with_image, with_join, AreSurvivors, HasRoom};

use cs_delta::image::Image;
use cs_jix::JoinIndex;
use cs_schema::Catalog;
use std::alloc::{AllocError, Global};
use std::marker::Model;

/// The images of a projection's segments.
#[derive(Drop)]
struct ProjectionImages {
    segments: Vec<Option<Image>>,
}

impl Model for ProjectionImages {
    ghost use Rattle.std.specs.Prelude.{List, Option};
    ghost use Rattle.cs_delta.specs.KindedImage.{KindedImage};

    ghost Value = { List (Option KindedImage) };

    ghost view = { λ p. p.segments.items };
}

/// The join indexes of a segment, by target.
#[derive(Drop)]
struct SegmentJoins {
    targets: Vec<Option<JoinIndex>>,
}

impl Model for SegmentJoins {
    ghost use Rattle.std.specs.Prelude.{List, Option};
    ghost use Rattle.cs_jix.specs.JoinIndex.{Place};

    ghost Value = { List (Option (List Place)) };

    ghost view = { λ s. s.targets.items };
}

/// The join indexes of a projection's segments.
#[derive(Drop)]
struct ProjectionJoins {
    segments: Vec<SegmentJoins>,
}

impl Model for ProjectionJoins {
    ghost use Rattle.std.specs.Prelude.{List, Option};
    ghost use Rattle.cs_jix.specs.JoinIndex.{Place};

    ghost Value = { List (List (Option (List Place))) };

    ghost view = { λ p. p.segments.items };
}

/// The images and join indexes of a store's surviving segments, each of them if it has been read.
#[derive(Drop)]
pub struct Survivors<'a> {
    catalog: &'a Catalog,
    images: Vec<ProjectionImages>,
    joins: Vec<ProjectionJoins>,
}

impl<'a> Model for Survivors<'a> {
    ghost use Rattle.cs_rows.specs.Survivors.{SurvivorsData, AreSurvivors};

    ghost Value = { SurvivorsData };

    ghost view = { λ s. record { catalog = s.catalog.now; images = s.images.items; joins = s.joins.items } };

    ghost invariant = { λ s. AreSurvivors (record { catalog = s.catalog.now; images = s.images.items; joins = s.joins.items }) };
}

impl ProjectionImages {
    fn new(alloc: Global, count: usize) -> Result<Self, AllocError>
        ensures { IfOk result (λ p. p ≡ replicate count None) }
    {
        let mut segments: Vec<Option<Image>> = Vec::new(alloc);
        for _slot in 0..count {
            segments.push(None)?;
        }
        Ok(ProjectionImages { segments })
    }

    fn put(&mut self, s: usize, image: Image)
        requires { s < length self.old }
        ensures { self.new ≡ slice_set self.old s (Some image) }
    {
        self.segments[s] = Some(image);
    }

    fn as_slice(&self) -> &[Option<Image>]
        ensures { result.now ≡ self.now }
    {
        self.segments.as_slice()
    }
}

impl SegmentJoins {
    fn new(alloc: Global, count: usize) -> Result<Self, AllocError>
        ensures { IfOk result (λ s. s ≡ replicate count None) }
    {
        let mut targets: Vec<Option<JoinIndex>> = Vec::new(alloc);
        for _slot in 0..count {
            targets.push(None)?;
        }
        Ok(SegmentJoins { targets })
    }

    fn put(&mut self, q: usize, join: JoinIndex)
        requires { q < length self.old }
        ensures { self.new ≡ slice_set self.old q (Some join) }
    {
        self.targets[q] = Some(join);
    }

    fn as_slice(&self) -> &[Option<JoinIndex>]
        ensures { result.now ≡ self.now }
    {
        self.targets.as_slice()
    }
}

impl ProjectionJoins {
    fn new(alloc: Global, count: usize, targets: usize) -> Result<Self, AllocError>
        ensures { IfOk result (λ p. p ≡ replicate count (replicate targets None)) }
    {
        let mut segments: Vec<SegmentJoins> = Vec::new(alloc);
        for _slot in 0..count {
            segments.push(SegmentJoins::new(alloc, targets)?)?;
        }
        Ok(ProjectionJoins { segments })
    }

    fn put(&mut self, s: usize, q: usize, join: JoinIndex)
        requires segment { s < length self.old }
        requires target { q < length (slice_index_or self.old s []) }
        ensures { self.new ≡ slice_set self.old s (slice_set (slice_index_or self.old s []) q (Some join)) }
    {
        self.segments[s].put(q, join);
    }

    fn at(&self, s: usize) -> &[Option<JoinIndex>]
        requires { s < length self.now }
        ensures { result.now ≡ slice_index_or self.now s [] }
    {
        self.segments[s].as_slice()
    }
}

impl<'a> Survivors<'a> {
    /// No images and no join indexes yet. There is a slot for each that the catalog may have.
    pub fn new(alloc: Global, catalog: &'a Catalog) -> Result<Self, AllocError>
        ensures { IfOk result (λ s. s ≡ no_survivors catalog.now) }
    {
        let count = catalog.projection_count();
        let mut images: Vec<ProjectionImages> = Vec::new(alloc);
        let mut joins: Vec<ProjectionJoins> = Vec::new(alloc);
        for p in 0..count {
            let segments = catalog.segments(p) as usize;
            images.push(ProjectionImages::new(alloc, segments)?)?;
            joins.push(ProjectionJoins::new(alloc, segments, count as usize)?)?;
        }
        Ok(Survivors {
            catalog,
            images,
            joins,
        })
    }

    /// The catalog.
    pub fn catalog(&self) -> &'a Catalog
        ensures catalog { result.now ≡ self.now.catalog }
        ensures facts { AreSurvivors self.now }
    {
        self.catalog
    }

    /// Sets the image of a segment, and replaces an earlier one.
    pub fn put_image(&mut self, p: usize, s: usize, image: Image)
        requires projection { p < length self.old.catalog.projections }
        requires segment { s < segments self.old.catalog p }
        requires kinds { image.kinds ≡ kinds_at self.old.catalog p }
        ensures new { self.new ≡ with_image self.old p s image }
        ensures room { HasRoom self.old.catalog self.old }
    {
        self.images[p].put(s, image);
    }

    /// Sets a join index of a segment, and replaces an earlier one.
    pub fn put_join(&mut self, p: usize, s: usize, q: usize, join: JoinIndex)
        requires projection { p < length self.old.catalog.projections }
        requires segment { s < segments self.old.catalog p }
        requires target { q < length self.old.catalog.projections }
        ensures new { self.new ≡ with_join self.old p s q join }
        ensures room { HasRoom self.old.catalog self.old }
    {
        self.joins[p].put(s, q, join);
    }

    /// The images of a projection's segments, by segment; `None` if absent.
    pub fn images(&self, p: usize) -> &[Option<Image>]
        requires { p < length self.now.catalog.projections }
        ensures images { result.now ≡ images_of self.now p }
        ensures count { length (images_of self.now p) ≡ segments self.now.catalog p }
    {
        self.images[p].as_slice()
    }

    /// The image of a segment, if present. Its columns are those of the projection.
    pub fn image(&self, p: usize, s: usize) -> Option<&Image>
        requires projection { p < length self.now.catalog.projections }
        requires segment { s < segments self.now.catalog p }
        ensures image { MatchOption result (image_at self.now p s ≡ None) (λ m. image_at self.now p s ≡ Some m.now) }
        ensures kinds { IfSome result (λ m. m.now.kinds ≡ kinds_at self.now.catalog p) }
    {
        let _ = &self.catalog;
        match self.held_image(p, s) {
            Some(image) => Some(image),
            None => None,
        }
    }

    /// The stored image of a segment.
    fn held_image(&self, p: usize, s: usize) -> Option<&Image>
        requires projection { p < length self.now.catalog.projections }
        requires segment { s < segments self.now.catalog p }
        ensures { MatchOption result (image_at self.now p s ≡ None) (λ m. image_at self.now p s ≡ Some m.now) }
    {
        self.images(p)[s].as_ref()
    }

    /// The join index of a segment to a target, if present.
    pub fn join(&self, p: usize, s: usize, q: usize) -> Option<&JoinIndex>
        requires projection { p < length self.now.catalog.projections }
        requires segment { s < segments self.now.catalog p }
        requires target { q < length self.now.catalog.projections }
        ensures { MatchOption result (join_at self.now p s q ≡ None) (λ j. join_at self.now p s q ≡ Some j.now) }
    {
        self.joins[p].at(s)[q].as_ref()
    }
}
