//! Building a column of the table from the row ids that a walk has followed, each cell once.
//!
//! A column that is read at the anchor is copied in runs of rows, or borrowed if the anchor has one segment.
ghost use Rattle.std.specs.Prelude.{◌≡◌, ◌<◌, ◌≤◌, ◌-◌, ◌*◌, ◌++◌, All, length, map, IfOk, IfSome, OnOk, is_some, slice_index};
ghost use Rattle.cs_schema.specs.Values.{values, kind_of};
ghost use Rattle.cs_schema.specs.Rows.{cell};
ghost use Rattle.cs_schema.specs.CatalogData.{column, segments};
ghost use Rattle.cs_rows.specs.Survivors.{contents_of, image_at};
ghost use Rattle.cs_rows.specs.Steps.{IsAt};
ghost use Rattle.cs_rows.specs.Columns.{rows_from};
ghost use Rattle.cs_rows.specs.Walk.{image_cell};
ghost use Rattle.cs_rows.specs.PlanWalks.{IsFollowed, anchor_rows_between, cells_of, followed_rows, walked_rows};

use crate::catalog_of::segments;
use crate::columns::push_cell;
use crate::counts::row_count;
use crate::follow::FollowedRows;
use crate::numbers::{anchor, source};
use crate::plan_walk::PlanWalk;
use cs_schema::Cells;
use cs_schema::limits::TEXT_BYTES;
use std::alloc::{AllocError, Global};

impl<'a> PlanWalk<'_, 'a> {
    /// An estimate of the bytes of the texts of `rows` cells of a column, by the mean of the images in which it is read.
    /// It is at most 255 for each cell.
    fn text_room(&self, c: usize, rows: usize) -> usize
        requires { c < length self.now.survivors.now.catalog.columns }
        ensures { result ≤ 255 * rows }
    {
        let q = source(self.plan, c);
        let j = self.indices[c];
        let mut cells: usize = 0;
        let mut size: usize = 0;
        for s in 0..segments(self.survivors, q) {
            match self.survivors.image(q as usize, s as usize) {
                Some(image) => {
                    let column = image.column(j);
                    cells = cells.saturating_add(column.len());
                    size = size.saturating_add(column.text_size());
                }
                None => {}
            }
        }
        let mean = (size / cells.max(1)).saturating_add(1);
        mean.saturating_mul(rows)
            .min(rows.saturating_mul(TEXT_BYTES))
    }

    /// Appends the cells of a range of rows of one of the anchor's segments to a column that is read at the anchor.
    fn push_segment(
        &self,
        s: u16,
        rows: (usize, usize),
        c: usize,
        cells: &mut Cells,
    ) -> Result<(), AllocError>
        requires column { c < length self.now.survivors.now.catalog.columns }
        requires read { slice_index self.now.plan.now.source c ≡ self.now.plan.now.anchor }
        requires kind { kind_of cells.old ≡ (column self.now.survivors.now.catalog c).kind }
        requires segment { s < segments self.now.survivors.now.catalog self.now.plan.now.anchor }
        requires order { rows.0 ≤ rows.1 }
        requires within { rows.1 ≤ length ((contents_of self.now.survivors.now).image self.now.plan.now.anchor s).pairs }
        ensures kind { kind_of cells.new ≡ kind_of cells.old }
        ensures ok { OnOk result (values cells.new ≡ values cells.old ++ cells_of self.now (rows_from s rows.0 (rows.1 - rows.0)) c) }
    {
        let anchor = anchor(self.plan);
        match self.survivors.image(anchor as usize, s as usize) {
            Some(image) => cells.extend(image.column(self.indices[c]), rows.0, rows.1),
            None => Ok(()),
        }
    }

    /// Appends the cells of a range of the anchor's rows to a column that is read at the anchor.
    fn push_range(
        &self,
        range: (usize, usize),
        c: usize,
        cells: &mut Cells,
    ) -> Result<(), AllocError>
        requires column { c < length self.now.survivors.now.catalog.columns }
        requires read { slice_index self.now.plan.now.source c ≡ self.now.plan.now.anchor }
        requires kind { kind_of cells.old ≡ (column self.now.survivors.now.catalog c).kind }
        requires order { range.0 ≤ range.1 }
        ensures kind { kind_of cells.new ≡ kind_of cells.old }
        ensures ok { OnOk result (values cells.new ≡ values cells.old ++ cells_of self.now (anchor_rows_between self.now range.0 range.1) c) }
    {
        let anchor = anchor(self.plan);
        // the number of the segment's first row
        let mut first: usize = 0;
        for s in 0..segments(self.survivors, anchor) {
            let count = row_count(self.survivors, anchor, s) as usize;
            let start = range.0.saturating_sub(first).min(count);
            let end = range.1.saturating_sub(first).min(count);
            self.push_segment(s, (start, end), c, cells)?;
            first += count;
        }
        Ok(())
    }

    /// Appends the cells of rows of the projection in which a column is read.
    fn push_rows(&self, ids: &[(u16, u32)], c: usize, cells: &mut Cells) -> Result<(), AllocError>
        requires column { c < length self.now.survivors.now.catalog.columns }
        requires rows { All (IsAt self.now.survivors.now.catalog (contents_of self.now.survivors.now)
            (slice_index self.now.plan.now.source c)) ids.now }
        requires kind { kind_of cells.old ≡ (column self.now.survivors.now.catalog c).kind }
        ensures kind { kind_of cells.new ≡ kind_of cells.old }
        ensures ok { OnOk result (values cells.new ≡ values cells.old
            ++ map (image_cell self.now.survivors.now.catalog (contents_of self.now.survivors.now)
            (slice_index self.now.plan.now.source c) c) ids.now) }
    {
        let q = source(self.plan, c) as usize;
        let j = self.indices[c];
        for id in ids {
            match self.survivors.image(q, id.0 as usize) {
                Some(image) => push_cell(cells, image, id.1, j)?,
                None => unreachable!(),
            }
        }
        Ok(())
    }

    /// Appends the cells of followed rows to a column.
    fn push_followed(
        &self,
        followed: &FollowedRows,
        c: usize,
        cells: &mut Cells,
    ) -> Result<(), AllocError>
        requires column { c < length self.now.survivors.now.catalog.columns }
        requires followed { IsFollowed self.now followed.now }
        requires kind { kind_of cells.old ≡ (column self.now.survivors.now.catalog c).kind }
        ensures kind { kind_of cells.new ≡ kind_of cells.old }
        ensures ok { OnOk result (values cells.new ≡ values cells.old
            ++ cells_of self.now (anchor_rows_between self.now followed.now.from followed.now.to) c) }
    {
        let q = source(self.plan, c);
        if q == anchor(self.plan) {
            return self.push_range((followed.from, followed.to), c, cells);
        }
        self.push_rows(followed.ids[q as usize].as_slice(), c, cells)
    }

    /// The number of rows that were followed.
    fn count_rows(&self, parts: &[FollowedRows]) -> usize {
        let rows = self.anchor_rows();
        let mut count: usize = 0;
        for part in parts {
            count = count.saturating_add(part.to.min(rows).saturating_sub(part.from));
        }
        count
    }

    /// The cells of a column of the table in the rows that were followed, one part after the other. Fails only if memory
    /// is refused.
    pub fn gather(
        &self,
        alloc: Global,
        parts: &[FollowedRows],
        c: usize,
    ) -> Result<Cells, AllocError>
        requires column { c < length self.now.survivors.now.catalog.columns }
        requires followed { All (IsFollowed self.now) parts.now }
        ensures kind { IfOk result (λ cells. kind_of cells ≡ (column self.now.survivors.now.catalog c).kind) }
        ensures cells { IfOk result (λ cells. values cells ≡ map (λ row. cell row c) (followed_rows self.now parts.now)) }
    {
        let rows = self.count_rows(parts);
        let mut cells = Cells::new(alloc, self.kind(c));
        cells.reserve(rows, self.text_room(c, rows))?;
        for part in parts {
            self.push_followed(part, c, &mut cells)?;
        }
        Ok(cells)
    }

    /// The anchor's cells of a column of the table, borrowed from its image. `None` if the column is read elsewhere, the
    /// anchor has several segments, or its image is not there.
    pub fn lone_column(&self, c: usize) -> Option<&'a Cells>
        requires column { c < length self.now.survivors.now.catalog.columns }
        ensures kind { IfSome result (λ cells. kind_of cells.now ≡ (column self.now.survivors.now.catalog c).kind) }
        ensures cells { IfSome result (λ cells. values cells.now ≡ map (λ row. cell row c) (walked_rows self.now)) }
        ensures found { slice_index self.now.plan.now.source c ≡ self.now.plan.now.anchor
            → segments self.now.survivors.now.catalog self.now.plan.now.anchor ≡ 1
            → is_some result ≡ is_some (image_at self.now.survivors.now self.now.plan.now.anchor 0) }
    {
        let anchor = anchor(self.plan);
        let survivors = self.survivors;
        if source(self.plan, c) != anchor || segments(survivors, anchor) != 1 {
            return None;
        }
        match survivors.image(anchor as usize, 0) {
            Some(image) => Some(image.column(self.indices[c])),
            None => None,
        }
    }
}
