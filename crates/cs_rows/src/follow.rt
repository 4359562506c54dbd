//! Following anchor rows through the join indexes along a plan's route. No cell is read: what is kept of a row is its
//! row id in each projection, from which `gather` builds the columns.
ghost use Rattle.std.specs.Prelude.{◌≡◌, ◌<◌, ◌≤◌, ◌-◌, ◌∷◌, [], ℕ, length, IfOk, IfErr, OnOk, false, slice_index_or};
ghost use Rattle.cs_schema.specs.CatalogData.{segments};
ghost use Rattle.cs_rows.specs.Survivors.{contents_of};
ghost use Rattle.cs_rows.specs.Steps.{IsAt};
ghost use Rattle.cs_rows.specs.Routes.{IsRoute};
ghost use Rattle.cs_rows.specs.Columns.{rows_from};
ghost use Rattle.cs_rows.specs.PlanWalks.{leads_astray, NoneAstray, IsFirstAstray, AreReached, Extends, IsFollowed, anchor_rows_between};

use crate::catalog_of::{projection_count, segments};
use crate::counts::row_count;
use crate::fault::WalkFault;
use crate::numbers::anchor;
use crate::plan_walk::PlanWalk;
use crate::row_ids::{RowIds, push_if};
use crate::steps::follow;
use std::alloc::{AllocError, Global};

/// The rows to which the anchor rows `from..to` lead, by their ids in each projection other than the anchor in which a
/// column is read.
#[derive(Drop)]
pub struct FollowedRows {
    pub from: usize,
    pub to: usize,
    pub(crate) ids: Vec<RowIds>,
}

impl PlanWalk<'_, '_> {
    /// Finds the row that the walk from an anchor row reaches in each projection of the plan, step by step along the
    /// route. Returns true if the walk is led astray.
    fn find_places(
        &self,
        route: &[(usize, usize)],
        row: (u16, u32),
        places: &mut [(u16, u32)],
    ) -> bool
        requires route { IsRoute self.now.survivors.now.catalog self.now.plan.now route.now }
        requires row { IsAt self.now.survivors.now.catalog (contents_of self.now.survivors.now) self.now.plan.now.anchor row }
        requires places { length self.now.survivors.now.catalog.projections ≤ length places.old }
        ensures count { length self.now.survivors.now.catalog.projections ≤ length places.new }
        ensures astray { result ≡ leads_astray self.now row }
        ensures places { result ≡ false → AreReached self.now row places.new }
    {
        places[anchor(self.plan) as usize] = row;
        for (q, p) in route {
            match follow(self.survivors, *p, *q, places[*p]) {
                Some(at) => places[*q] = at,
                None => return true,
            }
        }
        false
    }

    /// Appends the ids of the rows that the walk from one anchor row reached.
    fn push_places(&self, places: &[(u16, u32)], ids: &mut Vec<RowIds>) -> Result<(), AllocError>
        requires places { length self.now.survivors.now.catalog.projections ≤ length places.now }
        requires ids { length ids.old.items ≡ length self.now.survivors.now.catalog.projections }
        ensures ids { length ids.new.items ≡ length ids.old.items }
        ensures ok { OnOk result ((row : ℕ × ℕ) → AreReached self.now row places.now → Extends self.now (row ∷ []) ids.old.items ids.new.items) }
    {
        for q in 0..ids.len() {
            push_if(&mut ids[q], self.elsewhere[q], places[q])?;
        }
        Ok(())
    }

    /// Follows a range of rows of one of the anchor's segments. Fails at the first row that is led astray.
    fn follow_segment(
        &self,
        s: u16,
        rows: (u32, u32),
        ids: &mut Vec<RowIds>,
    ) -> Result<(), WalkFault>
        requires segment { s < segments self.now.survivors.now.catalog self.now.plan.now.anchor }
        requires order { rows.0 ≤ rows.1 }
        requires within { rows.1 ≤ length ((contents_of self.now.survivors.now).image self.now.plan.now.anchor s).pairs }
        requires ids { length ids.old.items ≡ length self.now.survivors.now.catalog.projections }
        ensures ids { OnOk result (length ids.new.items ≡ length ids.old.items) }
        ensures sound { OnOk result (NoneAstray self.now (rows_from s rows.0 (rows.1 - rows.0))) }
        ensures followed { OnOk result (Extends self.now (rows_from s rows.0 (rows.1 - rows.0)) ids.old.items ids.new.items) }
        ensures fault { IfErr result (IsFirstAstray self.now (rows_from s rows.0 (rows.1 - rows.0))) }
    {
        for i in rows.0..rows.1 {
            // a catalog has at most 8 projections
            let mut places = [(0u16, 0u32); 8];
            if self.find_places(self.route.as_slice(), (s, i), &mut places) {
                return Err(WalkFault::Astray {
                    p: anchor(self.plan),
                    s,
                    row: i,
                });
            }
            self.push_places(&places, ids)?;
        }
        Ok(())
    }

    /// Follows the rows `from..to` of the anchor, over all its segments. Fails at the first row that is led astray.
    fn follow_segments(
        &self,
        from: usize,
        to: usize,
        ids: &mut Vec<RowIds>,
    ) -> Result<(), WalkFault>
        requires order { from ≤ to }
        requires ids { length ids.old.items ≡ length self.now.survivors.now.catalog.projections }
        ensures ids { OnOk result (length ids.new.items ≡ length ids.old.items) }
        ensures sound { OnOk result (NoneAstray self.now (anchor_rows_between self.now from to)) }
        ensures followed { OnOk result (Extends self.now (anchor_rows_between self.now from to) ids.old.items ids.new.items) }
        ensures fault { IfErr result (IsFirstAstray self.now (anchor_rows_between self.now from to)) }
    {
        let anchor = anchor(self.plan);
        // the number of the segment's first row
        let mut first: usize = 0;
        for s in 0..segments(self.survivors, anchor) {
            let count = row_count(self.survivors, anchor, s) as usize;
            let start = from.saturating_sub(first).min(count);
            let end = to.saturating_sub(first).min(count);
            match self.follow_segment(s, (start as u32, end as u32), ids) {
                Ok(()) => {}
                Err(fault) => return Err(fault),
            }
            first += count;
        }
        Ok(())
    }

    /// For each projection no ids, with room for `room` if a column is read there.
    fn no_ids(&self, alloc: Global, room: usize) -> Result<Vec<RowIds>, AllocError>
        ensures count { IfOk result (λ ids. length ids.items ≡ length self.now.survivors.now.catalog.projections) }
        ensures none { IfOk result (λ ids. (q : ℕ) → slice_index_or ids.items q [] ≡ []) }
    {
        let mut ids = Vec::new(alloc);
        for q in 0..projection_count(self.survivors) as usize {
            let room = if self.elsewhere[q] { room } else { 0 };
            ids.push(RowIds::with_room(alloc, room)?)?;
        }
        Ok(ids)
    }

    /// Follows the rows `from..to` of the anchor, numbered from 0 over all its segments, and returns the ids of the rows
    /// to which they lead.
    ///
    /// Fails with `Astray` at the first of them that the join indexes lead astray, and with `Memory` only if memory is
    /// refused.
    pub fn follow(&self, alloc: Global, from: usize, to: usize) -> Result<FollowedRows, WalkFault>
        requires order { from ≤ to }
        ensures range { IfOk result (λ followed. (followed.from ≡ from) × (followed.to ≡ to)) }
        ensures followed { IfOk result (IsFollowed self.now) }
        ensures sound { OnOk result (NoneAstray self.now (anchor_rows_between self.now from to)) }
        ensures fault { IfErr result (IsFirstAstray self.now (anchor_rows_between self.now from to)) }
    {
        let room = to.min(self.anchor_rows()).saturating_sub(from);
        let mut ids = match self.no_ids(alloc, room) {
            Ok(ids) => ids,
            Err(_) => return Err(WalkFault::Memory),
        };
        match self.follow_segments(from, to, &mut ids) {
            Ok(()) => Ok(FollowedRows { from, to, ids }),
            Err(fault) => Err(fault),
        }
    }
}
