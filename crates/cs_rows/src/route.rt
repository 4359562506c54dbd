//! The route of a plan: the projections that the walk reaches, each after the one from which it is entered.
ghost use Rattle.std.specs.Prelude.{◌≡◌, ◌<◌, ◌==◌, length, IfOk};
ghost use Rattle.std.specs.List.{list_any};
ghost use Rattle.cs_rows.specs.Steps.{PlanFits};
ghost use Rattle.cs_rows.specs.Routes.{is_met, IsNextStep, IsRoute};

use crate::numbers::{anchor, prev};
use cs_safety::Plan;
use cs_schema::Catalog;
use std::alloc::{AllocError, Global};

/// Whether a projection is the anchor or on the route.
fn is_met(plan: &Plan, route: &[(usize, usize)], q: usize) -> bool
    ensures { result ≡ is_met plan.now route.now q }
{
    q == anchor(plan) as usize || is_on(route, q)
}

/// Whether a projection is on the route.
fn is_on(route: &[(usize, usize)], q: usize) -> bool
    ensures { result ≡ list_any (λ step. step.0 == q) route.now }
{
    route.iter().any(|step| step.0 == q)
}

/// The step to a projection, if it has not been reached and the one before it has.
fn next_step(plan: &Plan, route: &[(usize, usize)], q: usize) -> Option<(usize, usize)>
    requires { q < length plan.now.prev }
    ensures { IsNextStep plan.now route.now q result }
{
    if is_met(plan, route, q) {
        return None;
    }
    match prev(plan, q) {
        Some(p) => {
            if is_met(plan, route, p as usize) {
                Some((q, p as usize))
            } else {
                None
            }
        }
        None => None,
    }
}

/// The steps of a plan's walk: each projection with the one from which it is entered, which is the anchor or comes
/// earlier.
pub(crate) fn find_route(
    alloc: Global,
    catalog: &Catalog,
    plan: &Plan,
) -> Result<Vec<(usize, usize)>, AllocError>
    requires { PlanFits catalog.now plan.now }
    ensures { IfOk result (λ route. IsRoute catalog.now plan.now route.items) }
{
    let count = catalog.projection_count() as usize;
    let mut route: Vec<(usize, usize)> = Vec::with_capacity(alloc, count)?;
    for _round in 0..count {
        for q in 0..count {
            match next_step(plan, route.as_slice(), q) {
                Some(step) => route.push(step)?,
                None => {}
            }
        }
    }
    Ok(route)
}
