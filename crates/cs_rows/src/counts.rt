//! Counts of rows.
ghost use Rattle.std.specs.Prelude.{◌≡◌, ◌<◌, ◌≤◌, length};
ghost use Rattle.cs_schema.specs.CatalogData.{segments};
ghost use Rattle.cs_rows.specs.Walk.{projection_rows};
ghost use Rattle.cs_rows.specs.WalkByRows.{surviving_rows};
ghost use Rattle.cs_rows.specs.Survivors.{contents_of};
ghost use Rattle.cs_rows.specs.RowSteps.{kept_count, projection_kept};
ghost use Rattle.cs_rows.specs.PlanWalks.{anchor_rows};

use crate::catalog_of::{is_lost, projection_count, segments};
use crate::numbers::anchor;
use crate::plan_walk::PlanWalk;
use crate::survivors::Survivors;
use cs_schema::Loss;

/// The number of rows of a segment's image, or 0 if the image is absent.
pub(crate) fn row_count(survivors: &Survivors<'_>, p: u16, s: u16) -> u32
    requires projection { p < length survivors.now.catalog.projections }
    requires segment { s < segments survivors.now.catalog p }
    ensures { result ≡ length ((contents_of survivors.now).image p s).pairs }
{
    match survivors.image(p as usize, s as usize) {
        Some(image) => image.rows(),
        None => 0,
    }
}

/// The number of rows of a projection's images.
pub(crate) fn rows_in_projection(survivors: &Survivors<'_>, p: u16) -> usize
    requires { p < length survivors.now.catalog.projections }
    ensures { result ≡ length (projection_rows survivors.now.catalog (contents_of survivors.now) p) }
{
    let mut count = 0;
    for s in 0..segments(survivors, p) {
        count += row_count(survivors, p, s) as usize;
    }
    count
}

impl PlanWalk<'_, '_> {
    /// The number of rows of the anchor, over all its segments. Ranges of the walk are given by the numbers of these
    /// rows, from 0.
    pub fn anchor_rows(&self) -> usize
        ensures { result ≡ length (anchor_rows self.now) }
    {
        rows_in_projection(self.survivors, anchor(self.plan))
    }
}

/// The number of surviving rows of all projections. Ranges of `walk_rows` are given by the numbers of these rows, from
/// 0.
pub fn surviving_row_count(survivors: &Survivors<'_>, loss: Loss) -> usize
    ensures { result ≡ length (surviving_rows survivors.now.catalog loss (contents_of survivors.now)) }
{
    let mut count = 0;
    for p in 0..projection_count(survivors) {
        count += kept_in_projection(survivors, loss, p);
    }
    count
}

/// The number of surviving rows of a segment.
pub(crate) fn kept_in_segment(survivors: &Survivors<'_>, loss: Loss, p: u16, s: u16) -> u32
    requires projection { p < length survivors.now.catalog.projections }
    requires segment { s < segments survivors.now.catalog p }
    ensures { result ≡ kept_count survivors.now.catalog loss (contents_of survivors.now) p s }
{
    if is_lost(survivors, loss, p, s) {
        return 0;
    }
    row_count(survivors, p, s)
}

/// The number of surviving rows of a projection: at most 2^32 in each of at most 16 segments.
pub(crate) fn kept_in_projection(survivors: &Survivors<'_>, loss: Loss, p: u16) -> usize
    requires { p < length survivors.now.catalog.projections }
    ensures count { result ≡ length (projection_kept survivors.now.catalog loss (contents_of survivors.now) p) }
    ensures few { result ≤ 68719476736 }
{
    let mut count = 0;
    for s in 0..segments(survivors, p) {
        count += kept_in_segment(survivors, loss, p, s) as usize;
    }
    count
}
