//! The walk of a plan, prepared before its first row.
ghost use Rattle.std.specs.Prelude.{◌≡◌, ◌<◌, ◌==◌, ℕ, length, slice_index_or, IfOk, IsTrue, ◌↔◌};
ghost use Rattle.cs_schema.specs.CatalogData.{column};
ghost use Rattle.cs_schema.specs.CatalogRules.{IsCatalog};
ghost use Rattle.cs_rows.specs.Steps.{PlanFits};
ghost use Rattle.cs_rows.specs.Columns.{AreElsewhere, AreIndices};
ghost use Rattle.cs_rows.specs.Range.{IsPlanOf};
ghost use Rattle.cs_rows.specs.Routes.{IsRoute};

use crate::catalog_of;
use crate::marks::no_marks;
use crate::numbers::{anchor, place_in, source};
use crate::route::find_route;
use crate::survivors::Survivors;
use cs_safety::Plan;
use cs_schema::{Catalog, Kind};
use std::alloc::{AllocError, Global};

/// The walk of a plan through survivors: where each column of the table is read, and the steps to the projections that
/// the plan reaches.
#[derive(Drop)]
pub struct PlanWalk<'p, 'a> {
    pub survivors: &'a Survivors<'a>,
    pub plan: &'p Plan,
    /// For each column of the table, its index in the projection in which it is read.
    pub(crate) indices: Vec<usize>,
    /// For each projection, whether a column is read there and it is not the anchor.
    pub(crate) elsewhere: Vec<bool>,
    pub(crate) route: Vec<(usize, usize)>,
    pub ghost fits: { PlanFits survivors.now.catalog plan.now },
    pub ghost indices_are: { AreIndices survivors.now.catalog plan.now indices.items },
    pub ghost elsewhere_are: { AreElsewhere survivors.now.catalog plan.now elsewhere.items },
    pub ghost route_is: { IsRoute survivors.now.catalog plan.now route.items },
}

/// For each column of the table, its index in the projection in which it is read.
fn find_indices(alloc: Global, catalog: &Catalog, plan: &Plan) -> Result<Vec<usize>, AllocError>
    requires { PlanFits catalog.now plan.now }
    ensures { IfOk result (λ indices. AreIndices catalog.now plan.now indices.items) }
{
    let mut indices: Vec<usize> = Vec::new(alloc);
    for c in 0..catalog.column_count() {
        let q = source(plan, c);
        indices.push(place_in(catalog.columns_of(q), c))?;
    }
    Ok(indices)
}

/// For each projection, whether a column is read there and it is not the anchor.
fn find_elsewhere(alloc: Global, catalog: &Catalog, plan: &Plan) -> Result<Vec<bool>, AllocError>
    requires { PlanFits catalog.now plan.now }
    ensures { IfOk result (λ elsewhere. AreElsewhere catalog.now plan.now elsewhere.items) }
{
    let mut elsewhere = no_marks(alloc, catalog.projection_count() as usize)?;
    for c in 0..catalog.column_count() {
        let q = source(plan, c);
        elsewhere[q as usize] = true;
    }
    elsewhere[anchor(plan) as usize] = false;
    Ok(elsewhere)
}

impl<'p, 'a> PlanWalk<'p, 'a> {
    /// Prepares the walk of a plan through the survivors of a store. Fails only if memory is refused.
    pub fn new(
        alloc: Global,
        catalog: &Catalog,
        plan: &'p Plan,
        survivors: &'a Survivors<'a>,
    ) -> Result<Self, AllocError>
        requires rules { IsCatalog catalog.now }
        requires plan { ∥ IsPlanOf catalog.now plan.now ∥₁ }
        requires same { survivors.now.catalog ≡ catalog.now }
        ensures plan { IfOk result (λ walk. walk.plan.now ≡ plan.now) }
        ensures survivors { IfOk result (λ walk. walk.survivors.now ≡ survivors.now) }
    {
        let indices = find_indices(alloc, catalog, plan)?;
        let elsewhere = find_elsewhere(alloc, catalog, plan)?;
        let route = find_route(alloc, catalog, plan)?;
        Ok(PlanWalk {
            survivors,
            plan,
            indices,
            elsewhere,
            route,
        })
    }

    /// The number of columns of the table.
    pub fn column_count(&self) -> usize
        ensures count { result ≡ length self.now.survivors.now.catalog.columns }
        ensures rules { IsCatalog self.now.survivors.now.catalog }
    {
        catalog_of::column_count(self.survivors)
    }

    /// The kind of a column of the table.
    pub fn kind(&self, c: usize) -> Kind
        requires { c < length self.now.survivors.now.catalog.columns }
        ensures { result ≡ (column self.now.survivors.now.catalog c).kind }
    {
        catalog_of::kind(self.survivors, c)
    }
}
