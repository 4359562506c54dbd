//! The walk of a range of anchor rows.
ghost use Rattle.std.specs.Prelude.{◌≡◌, ◌≤◌, All, map, IfOk, IfErr, Ok};
ghost use Rattle.cs_schema.specs.CatalogRules.{IsCatalog};
ghost use Rattle.cs_rows.specs.Survivors.{contents_of};
ghost use Rattle.cs_rows.specs.Columns.{ColumnsFit};
ghost use Rattle.cs_rows.specs.Range.{walked_among, rows_between, IsPlanOf, IsWalkFault};
ghost use Rattle.cs_rows.specs.RowSteps.{AreRows};
ghost use Rattle.cs_rows.specs.PlanWalks.{IsFollowed, anchor_rows_between, followed_rows, walked_from};

pub use crate::fault::WalkFault;
use crate::follow::FollowedRows;
use crate::plan_walk::PlanWalk;
use crate::survivors::Survivors;
use crate::walked::Walked;
use cs_safety::Plan;
use cs_schema::{Catalog, Cells};
use std::alloc::{AllocError, Global};

impl PlanWalk<'_, '_> {
    /// The columns of the table in the rows that were followed.
    fn gather_columns(
        &self,
        alloc: Global,
        parts: &[FollowedRows],
    ) -> Result<Vec<Cells>, AllocError>
        requires { All (IsFollowed self.now) parts.now }
        ensures fit { IfOk result (λ columns. ColumnsFit self.now.survivors.now.catalog columns.items) }
        ensures rows { IfOk result (λ columns. AreRows self.now.survivors.now.catalog (followed_rows self.now parts.now) columns.items) }
        ensures rules { IsCatalog self.now.survivors.now.catalog }
    {
        let mut columns = Vec::new(alloc);
        for c in 0..self.column_count() {
            columns.push(self.gather(alloc, parts, c)?)?;
        }
        Ok(columns)
    }

    /// Walks the rows `from..to` of the anchor, numbered from 0 over all its segments, and returns the row that each of
    /// them leads to.
    ///
    /// Fails with `Astray` at the first of them that the join indexes lead astray, and with `Memory` only if memory is
    /// refused.
    pub fn range(&self, alloc: Global, from: usize, to: usize) -> Result<Walked, WalkFault>
        requires { from ≤ to }
        ensures kinds { IfOk result (λ walked. walked.kinds ≡ map (λ c. c.kind) self.now.survivors.now.catalog.columns) }
        ensures rows { IfOk result (λ walked. Ok walked.rows ≡ walked_from self.now (anchor_rows_between self.now from to)) }
        ensures fault { IfErr result (IsWalkFault (walked_from self.now (anchor_rows_between self.now from to))) }
    {
        let followed = match self.follow(alloc, from, to) {
            Ok(followed) => followed,
            Err(fault) => return Err(fault),
        };
        let columns = self.gather_columns(alloc, &[followed])?;
        Ok(Walked::from_columns(columns))
    }
}

/// Walks a plan from the rows `from..to` of its anchor, numbered from 0 over all its segments, and returns the row that
/// each of them leads to.
///
/// Fails with `Astray` at the first of them that the join indexes lead astray, and with `Memory` only if memory is
/// refused. For several ranges, make one `PlanWalk` and call `range`.
pub fn walk_range(
    alloc: Global,
    catalog: &Catalog,
    plan: &Plan,
    survivors: &Survivors<'_>,
    from: usize,
    to: usize,
) -> Result<Walked, WalkFault>
    requires catalog { IsCatalog catalog.now }
    requires plan { ∥ IsPlanOf catalog.now plan.now ∥₁ }
    requires same { survivors.now.catalog ≡ catalog.now }
    requires order { from ≤ to }
    ensures kinds { IfOk result (λ walked. walked.kinds ≡ map (λ c. c.kind) catalog.now.columns) }
    ensures rows { IfOk result (λ walked. Ok walked.rows ≡ walked_among catalog.now (contents_of survivors.now) plan.now
        (rows_between catalog.now (contents_of survivors.now) plan.now from to)) }
    ensures fault { IfErr result (IsWalkFault (walked_among catalog.now (contents_of survivors.now) plan.now
        (rows_between catalog.now (contents_of survivors.now) plan.now from to))) }
{
    match PlanWalk::new(alloc, catalog, plan, survivors) {
        Ok(walk) => walk.range(alloc, from, to),
        Err(_) => Err(WalkFault::Memory),
    }
}
