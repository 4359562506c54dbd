//! The walk by rows, from a range of surviving rows.
ghost use Rattle.std.specs.Prelude.{◌≡◌, ◌<◌, ◌≤◌, ◌-◌, ◌∷◌, [], length, map, true, false, IfOk, IfErr, OnOk, Ok};
ghost use Rattle.cs_schema.specs.CatalogData.{segments};
ghost use Rattle.cs_rows.specs.Survivors.{contents_of};
ghost use Rattle.cs_rows.specs.Columns.{ColumnsFit};
ghost use Rattle.cs_rows.specs.Range.{IsWalkFault};
ghost use Rattle.cs_rows.specs.WalkByRows.{found_row};
ghost use Rattle.cs_rows.specs.Superprojections.{is_given};
ghost use Rattle.cs_rows.specs.RangeByRows.{surviving_between, found_among, fresh_among, given_among};
ghost use Rattle.cs_rows.specs.RowSteps.{Stands, AllStand, AreColumnSources, AreSourcesOf, through, RowPushed, reached_from};
ghost use Rattle.cs_rows.specs.RowWalks.{NoneAstray, IsFirstAstray, Extends, rows_between, rows_in_projection};

use crate::catalog_of::{self, has_all_columns};
use crate::column_sources::{ColumnSources, Source};
use crate::columns::{new_columns, push_cell};
use crate::counts::{kept_in_projection, kept_in_segment, surviving_row_count};
use crate::fault::WalkFault;
use crate::levels::{ReachedRows, RowWalk, walk_from};
use crate::scratch::{Scratch, new_scratch};
use crate::survivors::Survivors;
use crate::walked::Walked;
use cs_schema::{Catalog, Cells, Loss};
use std::alloc::{AllocError, Global};

/// Appends a full row to the columns. Each cell is read at one of the rows that the walk reached.
fn push_row(
    survivors: &Survivors<'_>,
    reached: &[(u16, (u16, u32))],
    sources: &[Source],
    columns: &mut Vec<Cells>,
) -> Result<(), AllocError>
    requires sources { AreSourcesOf survivors.now.catalog (contents_of survivors.now) reached.now sources.now }
    requires columns { ColumnsFit survivors.now.catalog columns.old.items }
    ensures count { length columns.new.items ≡ length columns.old.items }
    ensures ok { OnOk result (RowPushed (found_row survivors.now.catalog (contents_of survivors.now) (through reached.now))
        columns.old.items columns.new.items (length survivors.now.catalog.columns)) }
{
    for c in 0..columns.len() {
        let source = sources[c];
        let row = reached[source.reached];
        let at = row.1;
        match survivors.image(row.0 as usize, at.0 as usize) {
            Some(image) => push_cell(&mut columns[c], image, at.1, source.place)?,
            None => unreachable!(),
        }
    }
    Ok(())
}

/// Appends what a walk has found if it is a full row and, with `fresh_only`, no earlier walk finds it.
fn push_found(
    survivors: &Survivors<'_>,
    reached_rows: &ReachedRows,
    sources: &mut ColumnSources,
    fresh_only: bool,
    columns: &mut Vec<Cells>,
) -> Result<(), AllocError>
    requires stand { AllStand survivors.now.catalog (contents_of survivors.now) reached_rows.now }
    requires sources { AreColumnSources fresh_only survivors.now.catalog sources.old }
    requires columns { ColumnsFit survivors.now.catalog columns.old.items }
    ensures sources { OnOk result (AreColumnSources fresh_only survivors.now.catalog sources.new) }
    ensures count { length columns.new.items ≡ length columns.old.items }
    ensures given { OnOk result (is_given fresh_only survivors.now.catalog reached_rows.now ≡ true
        → RowPushed (found_row survivors.now.catalog (contents_of survivors.now) reached_rows.now)
        columns.old.items columns.new.items (length survivors.now.catalog.columns)) }
    ensures not_given { OnOk result (is_given fresh_only survivors.now.catalog reached_rows.now ≡ false → columns.new.items ≡ columns.old.items) }
{
    let reached = reached_rows.reached();
    sources.update(survivors, reached, fresh_only)?;
    if sources.given {
        push_row(survivors, reached, sources.sources.as_slice(), columns)?;
    }
    Ok(())
}

impl RowWalk<'_> {
    /// Walks from one row and appends the row that it finds, if it is to be returned.
    fn walk_row(
        &self,
        row: (u16, (u16, u32)),
        scratch: &mut Scratch,
        columns: &mut Vec<Cells>,
    ) -> Result<(), WalkFault>
        requires row { Stands self.now.survivors.now.catalog (contents_of self.now.survivors.now) row }
        requires scratch { AreColumnSources self.now.fresh_only self.now.survivors.now.catalog scratch.old.sources }
        requires columns { ColumnsFit self.now.survivors.now.catalog columns.old.items }
        ensures scratch { OnOk result (AreColumnSources self.now.fresh_only self.now.survivors.now.catalog scratch.new.sources) }
        ensures fit { OnOk result (ColumnsFit self.now.survivors.now.catalog columns.new.items) }
        ensures sound { OnOk result (NoneAstray self.now (row ∷ [])) }
        ensures cells { OnOk result (Extends self.now (row ∷ []) columns.old.items columns.new.items) }
        ensures fault { IfErr result (IsFirstAstray self.now (row ∷ [])) }
    {
        if !walk_from(self, row, &mut scratch.reached_rows, &mut scratch.landings)? {
            return Err(WalkFault::Astray {
                p: row.0,
                s: row.1.0,
                row: row.1.1,
            });
        }
        push_found(
            self.survivors,
            &scratch.reached_rows,
            &mut scratch.sources,
            self.fresh_only,
            columns,
        )?;
        Ok(())
    }

    /// Walks from a range of a segment's rows.
    fn walk_segment(
        &self,
        segment: (u16, u16),
        rows: (u32, u32),
        scratch: &mut Scratch,
        columns: &mut Vec<Cells>,
    ) -> Result<(), WalkFault>
        requires scratch { AreColumnSources self.now.fresh_only self.now.survivors.now.catalog scratch.old.sources }
        requires columns { ColumnsFit self.now.survivors.now.catalog columns.old.items }
        requires projection { segment.0 < length self.now.survivors.now.catalog.projections }
        requires segment { segment.1 < segments self.now.survivors.now.catalog segment.0 }
        requires order { rows.0 ≤ rows.1 }
        requires within { rows.1 ≤ length ((contents_of self.now.survivors.now).image segment.0 segment.1).pairs }
        ensures scratch { OnOk result (AreColumnSources self.now.fresh_only self.now.survivors.now.catalog scratch.new.sources) }
        ensures fit { OnOk result (ColumnsFit self.now.survivors.now.catalog columns.new.items) }
        ensures sound { OnOk result (NoneAstray self.now (reached_from segment.0 segment.1 rows.0 (rows.1 - rows.0))) }
        ensures cells { OnOk result (Extends self.now (reached_from segment.0 segment.1 rows.0 (rows.1 - rows.0))
            columns.old.items columns.new.items) }
        ensures fault { IfErr result (IsFirstAstray self.now (reached_from segment.0 segment.1 rows.0 (rows.1 - rows.0))) }
    {
        if has_all_columns(self.survivors, segment.0) {
            return self.walk_superprojection(segment, rows, scratch, columns);
        }
        for i in rows.0..rows.1 {
            let row = (segment.0, (segment.1, i));
            match self.walk_row(row, scratch, columns) {
                Ok(()) => {}
                Err(fault) => return Err(fault),
            }
        }
        Ok(())
    }

    /// Walks from a range of the surviving rows of a projection, numbered from 0 in that projection.
    fn walk_projection(
        &self,
        p: u16,
        range: (usize, usize),
        scratch: &mut Scratch,
        columns: &mut Vec<Cells>,
    ) -> Result<(), WalkFault>
        requires scratch { AreColumnSources self.now.fresh_only self.now.survivors.now.catalog scratch.old.sources }
        requires columns { ColumnsFit self.now.survivors.now.catalog columns.old.items }
        requires projection { p < length self.now.survivors.now.catalog.projections }
        requires order { range.0 ≤ range.1 }
        ensures scratch { OnOk result (AreColumnSources self.now.fresh_only self.now.survivors.now.catalog scratch.new.sources) }
        ensures fit { OnOk result (ColumnsFit self.now.survivors.now.catalog columns.new.items) }
        ensures sound { OnOk result (NoneAstray self.now (rows_in_projection self.now p range.0 range.1)) }
        ensures cells { OnOk result (Extends self.now (rows_in_projection self.now p range.0 range.1) columns.old.items columns.new.items) }
        ensures fault { IfErr result (IsFirstAstray self.now (rows_in_projection self.now p range.0 range.1)) }
    {
        let mut first: usize = 0;
        for s in 0..catalog_of::segments(self.survivors, p) {
            let count = kept_in_segment(self.survivors, self.loss, p, s) as usize;
            let start = range.0.saturating_sub(first).min(count);
            let end = range.1.saturating_sub(first).min(count);
            match self.walk_segment((p, s), (start as u32, end as u32), scratch, columns) {
                Ok(()) => {}
                Err(fault) => return Err(fault),
            }
            first += count;
        }
        Ok(())
    }

    /// Walks from a range of the surviving rows of all projections.
    fn walk_projections(
        &self,
        range: (usize, usize),
        scratch: &mut Scratch,
        columns: &mut Vec<Cells>,
    ) -> Result<(), WalkFault>
        requires scratch { AreColumnSources self.now.fresh_only self.now.survivors.now.catalog scratch.old.sources }
        requires columns { ColumnsFit self.now.survivors.now.catalog columns.old.items }
        requires order { range.0 ≤ range.1 }
        ensures fit { OnOk result (ColumnsFit self.now.survivors.now.catalog columns.new.items) }
        ensures sound { OnOk result (NoneAstray self.now (rows_between self.now range.0 range.1)) }
        ensures cells { OnOk result (Extends self.now (rows_between self.now range.0 range.1) columns.old.items columns.new.items) }
        ensures fault { IfErr result (IsFirstAstray self.now (rows_between self.now range.0 range.1)) }
    {
        let mut first: usize = 0;
        for p in 0..catalog_of::projection_count(self.survivors) {
            let within = (range.0.saturating_sub(first), range.1.saturating_sub(first));
            match self.walk_projection(p, within, scratch, columns) {
                Ok(()) => {}
                Err(fault) => return Err(fault),
            }
            first += kept_in_projection(self.survivors, self.loss, p);
        }
        Ok(())
    }

    /// The rows found from the surviving rows `from..to`; with `fresh_only`, those that no earlier walk finds.
    fn range(
        &self,
        alloc: Global,
        catalog: &Catalog,
        from: usize,
        to: usize,
    ) -> Result<Walked, WalkFault>
        requires same { self.now.survivors.now.catalog ≡ catalog.now }
        requires order { from ≤ to }
        ensures kinds { IfOk result (λ walked. walked.kinds ≡ map (λ c. c.kind) catalog.now.columns) }
        ensures rows { IfOk result (λ walked. Ok walked.rows
            ≡ given_among self.now.fresh_only catalog.now self.now.loss (contents_of self.now.survivors.now)
            (surviving_between catalog.now self.now.loss (contents_of self.now.survivors.now) from to)) }
        ensures fault { IfErr result (IsWalkFault (given_among self.now.fresh_only catalog.now self.now.loss
            (contents_of self.now.survivors.now)
            (surviving_between catalog.now self.now.loss (contents_of self.now.survivors.now) from to))) }
    {
        // most walks find a row
        let room = to
            .min(surviving_row_count(self.survivors, self.loss))
            .saturating_sub(from);
        let mut columns = match new_columns(alloc, catalog, room) {
            Ok(columns) => columns,
            Err(_) => return Err(WalkFault::Memory),
        };
        let mut scratch = match new_scratch(alloc, catalog) {
            Ok(scratch) => scratch,
            Err(_) => return Err(WalkFault::Memory),
        };
        match self.walk_projections((from, to), &mut scratch, &mut columns) {
            Ok(()) => Ok(Walked::from_columns(columns)),
            Err(fault) => Err(fault),
        }
    }
}

/// Walks from the surviving rows `from..to` and returns each full row that they find, in the order of the rows walked
/// from.
///
/// The surviving rows are those of all segments that are not lost, by projection, segment and position. Fails with
/// `Astray` at the first of them that the join indexes lead astray, and with `Memory` only if memory is refused.
pub fn walk_rows(
    alloc: Global,
    catalog: &Catalog,
    loss: Loss,
    survivors: &Survivors<'_>,
    from: usize,
    to: usize,
) -> Result<Walked, WalkFault>
    requires same { survivors.now.catalog ≡ catalog.now }
    requires order { from ≤ to }
    ensures kinds { IfOk result (λ walked. walked.kinds ≡ map (λ c. c.kind) catalog.now.columns) }
    ensures rows { IfOk result (λ walked. Ok walked.rows ≡ found_among catalog.now loss (contents_of survivors.now)
        (surviving_between catalog.now loss (contents_of survivors.now) from to)) }
    ensures fault { IfErr result (IsWalkFault (found_among catalog.now loss (contents_of survivors.now)
        (surviving_between catalog.now loss (contents_of survivors.now) from to))) }
{
    let fresh_only = false;
    let walk = RowWalk {
        survivors,
        loss,
        fresh_only,
    };
    walk.range(alloc, catalog, from, to)
}

/// Walks from the surviving rows `from..to` and returns each full row that they find, except the rows that an earlier
/// walk finds by itself: those whose key is read in a projection that has every column and precedes the one the walk
/// starts from.
///
/// Without later repeats of a key, these are the rows of `walk_rows`, and fewer cells are copied; `rebuild` calls this.
/// The surviving rows are those of all segments that are not lost, by projection, segment and position. Fails with
/// `Astray` at the first of them that the join indexes lead astray, and with `Memory` only if memory is refused.
pub fn walk_fresh_rows(
    alloc: Global,
    catalog: &Catalog,
    loss: Loss,
    survivors: &Survivors<'_>,
    from: usize,
    to: usize,
) -> Result<Walked, WalkFault>
    requires same { survivors.now.catalog ≡ catalog.now }
    requires order { from ≤ to }
    ensures kinds { IfOk result (λ walked. walked.kinds ≡ map (λ c. c.kind) catalog.now.columns) }
    ensures rows { IfOk result (λ walked. Ok walked.rows ≡ fresh_among catalog.now loss (contents_of survivors.now)
        (surviving_between catalog.now loss (contents_of survivors.now) from to)) }
    ensures fault { IfErr result (IsWalkFault (fresh_among catalog.now loss (contents_of survivors.now)
        (surviving_between catalog.now loss (contents_of survivors.now) from to))) }
{
    let fresh_only = true;
    let walk = RowWalk {
        survivors,
        loss,
        fresh_only,
    };
    walk.range(alloc, catalog, from, to)
}
