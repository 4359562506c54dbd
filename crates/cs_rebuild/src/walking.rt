//! The walk of the surviving rows, by the catalog's rule of safety.
ghost use Rattle.std.specs.Prelude.{◌≡◌, ◌<◌, ◌^◌, length, Ok, IfOk, IfErr};
ghost use Rattle.cs_schema.specs.CatalogRules.{IsCatalog};
ghost use Rattle.cs_schema.specs.FileNames.{FileContents};
ghost use Rattle.cs_store.specs.Fault.{MemoryOr};
ghost use Rattle.cs_safety.specs.Safety.{IsSafe};
ghost use Rattle.cs_rows.specs.Range.{IsPlanOf};
ghost use Rattle.cs_rows.specs.Survivors.{contents_of};
ghost use Rattle.cs_rows.specs.Walk.{projection_rows, walked};
ghost use Rattle.cs_rebuild.specs.Walking.{HasTableKinds, IsWalkRefusal};
ghost use Rattle.cs_rebuild.specs.Steps.{AreRead, AreWalkedRows, IsStray};

use crate::planned::walk_planned;
use crate::rowwise::walk_rowwise;
use crate::run::Run;
use cs_board::Gate;
use cs_rows::{PlanWalk, Survivors, Table};
use cs_safety::{Plan, plan};
use cs_schema::{Catalog, Loss, Safety};
use cs_store::Fault;
use std::marker::Sync;
use std::thread::Threads;

/// The rows to which the walk of a plan leads, or the fault of the first row that is led astray.
fn walk_plan<'a, R: Threads + Sync, G: Gate + Sync>(
    run: &Run<'_, R, G>,
    catalog: &Catalog,
    plan: &Plan,
    survivors: &'a Survivors<'a>,
) -> Result<Table<'a>, Fault>
    requires rules { IsCatalog catalog.now }
    requires plan { IsPlanOf catalog.now plan.now }
    requires same { survivors.now.catalog ≡ catalog.now }
    requires few { length (projection_rows catalog.now (contents_of survivors.now) plan.now.anchor) < 2 ^ 32 }
    ensures kinds { IfOk result (HasTableKinds catalog.now) }
    ensures rows { IfOk result (λ rows. walked catalog.now (contents_of survivors.now) plan.now ≡ Ok rows.rows) }
    ensures err { IfErr result (IsWalkRefusal (walked catalog.now (contents_of survivors.now) plan.now)) }
{
    match PlanWalk::new(run.alloc, catalog, plan, survivors) {
        Ok(walk) => walk_planned(run, &walk),
        Err(_) => Err(Fault::Memory),
    }
}

/// The rows to which the walk by the catalog's rule of safety leads, or the fault of the first row that is led astray.
pub fn walk_all<'a, R: Threads + Sync, G: Gate + Sync>(
    run: &Run<'_, R, G>,
    catalog: &Catalog,
    loss: Loss,
    survivors: &'a Survivors<'a>,
) -> Result<Table<'a>, Fault>
    requires safe { IsSafe catalog.now loss }
    requires read { (F : FileContents) × AreRead catalog.now F loss survivors.now }
    ensures ok { IfOk result (AreWalkedRows catalog.now loss (contents_of survivors.now)) }
    ensures err { IfErr result (λ fault. MemoryOr fault (IsStray catalog.now loss (contents_of survivors.now) fault)) }
{
    let _rules = catalog.projection_count();
    match catalog.safety {
        Safety::Whole => match plan(catalog, loss) {
            Some(plan) => walk_plan(run, catalog, &plan, survivors),
            None => unreachable!(),
        },
        Safety::Rows => walk_rowwise(run, catalog, loss, survivors),
    }
}
