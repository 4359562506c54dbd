//! The walk by rows from a superprojection, which has every column of the table.
//!
//! Each row is full by itself. So the walk only checks whether the row is led astray, and the cells of many rows are
//! copied together.
ghost use Rattle.std.specs.Prelude.{◌≡◌, ◌<◌, ◌≤◌, ◌-◌, ◌++◌, ◌∷◌, [], ℕ, IfErr, OnOk, length, slice_index_or};
ghost use Rattle.cs_schema.specs.CatalogData.{segments};
ghost use Rattle.cs_schema.specs.Values.{values};
ghost use Rattle.cs_schema.specs.declared.cells.Cells.{Cells as CellsData};
ghost use Rattle.cs_rows.specs.Survivors.{contents_of};
ghost use Rattle.cs_rows.specs.Columns.{ColumnsFit};
ghost use Rattle.cs_rows.specs.Superprojections.{HasAll, own_cells};
ghost use Rattle.cs_rows.specs.RowSteps.{Stands, reached_from};
ghost use Rattle.cs_rows.specs.RowWalks.{NoneAstray, IsFirstAstray, Extends};

use crate::catalog_of::{columns_of, projection_count};
use crate::fault::WalkFault;
use crate::levels::{RowWalk, walk_from};
use crate::numbers::place_in;
use crate::scratch::Scratch;
use crate::survivors::Survivors;
use cs_schema::Cells;
use std::alloc::AllocError;

/// Appends the cells of a range of a segment's rows to the table's columns.
pub(crate) fn copy_rows(
    survivors: &Survivors<'_>,
    segment: (u16, u16),
    rows: (u32, u32),
    columns: &mut Vec<Cells>,
) -> Result<(), AllocError>
    requires all { HasAll survivors.now.catalog segment.0 }
    requires columns { ColumnsFit survivors.now.catalog columns.old.items }
    requires projection { segment.0 < length survivors.now.catalog.projections }
    requires segment { segment.1 < segments survivors.now.catalog segment.0 }
    requires order { rows.0 ≤ rows.1 }
    requires within { rows.1 ≤ length ((contents_of survivors.now).image segment.0 segment.1).pairs }
    ensures fit { OnOk result (ColumnsFit survivors.now.catalog columns.new.items) }
    ensures cells { OnOk result ((c : ℕ) (d : CellsData) → c < length survivors.now.catalog.columns
        → values (slice_index_or columns.new.items c d)
        ≡ values (slice_index_or columns.old.items c d)
        ++ own_cells survivors.now.catalog (contents_of survivors.now)
        (reached_from segment.0 segment.1 rows.0 (rows.1 - rows.0)) c) }
{
    if rows.0 == rows.1 {
        return Ok(());
    }
    let own = columns_of(survivors, segment.0);
    for c in 0..columns.len() {
        match survivors.image(segment.0 as usize, segment.1 as usize) {
            Some(image) => {
                let column = image.column(place_in(own, c));
                columns[c].extend(column, rows.0 as usize, rows.1 as usize)?;
            }
            None => unreachable!(),
        }
    }
    Ok(())
}

impl RowWalk<'_> {
    /// Walks from one row only to check whether it is led astray.
    fn follow_row(&self, row: (u16, (u16, u32)), scratch: &mut Scratch) -> Result<(), WalkFault>
        requires { Stands self.now.survivors.now.catalog (contents_of self.now.survivors.now) row }
        ensures sources { scratch.new.sources ≡ scratch.old.sources }
        ensures sound { OnOk result (NoneAstray self.now (row ∷ [])) }
        ensures fault { IfErr result (IsFirstAstray self.now (row ∷ [])) }
    {
        if !walk_from(self, row, &mut scratch.reached_rows, &mut scratch.landings)? {
            return Err(WalkFault::Astray {
                p: row.0,
                s: row.1.0,
                row: row.1.1,
            });
        }
        Ok(())
    }

    /// Walks from a range of a segment's rows only to check whether one is led astray.
    fn follow_segment(
        &self,
        segment: (u16, u16),
        rows: (u32, u32),
        scratch: &mut Scratch,
    ) -> Result<(), WalkFault>
        requires projection { segment.0 < length self.now.survivors.now.catalog.projections }
        requires segment { segment.1 < segments self.now.survivors.now.catalog segment.0 }
        requires order { rows.0 ≤ rows.1 }
        requires within { rows.1 ≤ length ((contents_of self.now.survivors.now).image segment.0 segment.1).pairs }
        ensures sources { scratch.new.sources ≡ scratch.old.sources }
        ensures sound { OnOk result (NoneAstray self.now (reached_from segment.0 segment.1 rows.0 (rows.1 - rows.0))) }
        ensures fault { IfErr result (IsFirstAstray self.now (reached_from segment.0 segment.1 rows.0 (rows.1 - rows.0))) }
    {
        for i in rows.0..rows.1 {
            let row = (segment.0, (segment.1, i));
            match self.follow_row(row, scratch) {
                Ok(()) => {}
                Err(fault) => return Err(fault),
            }
        }
        Ok(())
    }

    /// Walks from a range of rows of a superprojection's segment, and copies their cells together.
    pub(crate) fn walk_superprojection(
        &self,
        segment: (u16, u16),
        rows: (u32, u32),
        scratch: &mut Scratch,
        columns: &mut Vec<Cells>,
    ) -> Result<(), WalkFault>
        requires all { HasAll self.now.survivors.now.catalog segment.0 }
        requires columns { ColumnsFit self.now.survivors.now.catalog columns.old.items }
        requires projection { segment.0 < length self.now.survivors.now.catalog.projections }
        requires segment { segment.1 < segments self.now.survivors.now.catalog segment.0 }
        requires order { rows.0 ≤ rows.1 }
        requires within { rows.1 ≤ length ((contents_of self.now.survivors.now).image segment.0 segment.1).pairs }
        ensures sources { scratch.new.sources ≡ scratch.old.sources }
        ensures fit { OnOk result (ColumnsFit self.now.survivors.now.catalog columns.new.items) }
        ensures sound { OnOk result (NoneAstray self.now (reached_from segment.0 segment.1 rows.0 (rows.1 - rows.0))) }
        ensures cells { OnOk result (Extends self.now (reached_from segment.0 segment.1 rows.0 (rows.1 - rows.0))
            columns.old.items columns.new.items) }
        ensures fault { IfErr result (IsFirstAstray self.now (reached_from segment.0 segment.1 rows.0 (rows.1 - rows.0))) }
    {
        // for the clause that the key is a column
        let _rules = projection_count(self.survivors);
        match self.follow_segment(segment, rows, scratch) {
            Ok(()) => {}
            Err(fault) => return Err(fault),
        }
        copy_rows(self.survivors, segment, rows, columns)?;
        Ok(())
    }
}
