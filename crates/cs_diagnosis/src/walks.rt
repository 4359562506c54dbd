//! The plans that were walked, with their results.
ghost use Rattle.std.specs.Prelude.{◌≡◌, ◌↔◌, List, [], Some, IsTrue, OnOk};
ghost use Rattle.cs_schema.specs.CatalogData.{CatalogData};
ghost use Rattle.cs_schema.specs.FileNames.{FileContents};
ghost use Rattle.cs_schema.specs.Lists.{IsIn};
ghost use Rattle.cs_schema.specs.Losses.{Sites};
ghost use Rattle.cs_schema.specs.Rows.{Row};
ghost use Rattle.cs_safety.specs.Safety.{IsSafe};
ghost use Rattle.cs_safety.specs.Within.{IsWithin};
ghost use Rattle.cs_recovery.specs.Holding.{HoldsSurvivors};
ghost use Rattle.cs_diagnosis.specs.Conflicts.{AreAllHit};
ghost use Rattle.cs_diagnosis.specs.declared.conflicts.Conflicts.{Conflicts as ConflictsData};
ghost use Rattle.cs_diagnosis.specs.Walks.{AreWalks, IsPlanKept, IsRefuted, IsWalkOutcome};
ghost use Rattle.cs_diagnosis.specs.declared.walks.WalkedPlan.{WalkedPlan as WalkedPlanData};

use crate::Conflicts;
use cs_safety::{Plan, plan};
use cs_schema::{Catalog, Loss, Safety};
use std::alloc::{AllocError, Global};

/// A plan that was walked, and the conflicts of the table to which it leads, if any.
#[derive(Drop)]
pub struct WalkedPlan {
    pub plan: Plan,
    pub conflicts: Option<Conflicts>,
}

/// The plans that were walked. If the catalog's safety is by rows, each loss has its own walk, and no result is stored.
#[derive(Drop)]
pub struct Walks {
    pub plans: Vec<WalkedPlan>,
}

/// Whether two plans are equal.
fn is_same(plan: &Plan, other: &Plan) -> bool
    ensures { IsTrue result ↔ (plan.now ≡ other.now) }
{
    if plan.anchor != other.anchor {
        return false;
    }
    if !(plan.prev.as_slice() == other.prev.as_slice()) {
        return false;
    }
    plan.source.as_slice() == other.source.as_slice()
}

/// Whether there is a table and a loss contains a site of each of its conflicts.
fn is_hit(conflicts: &Option<Conflicts>, loss: Loss) -> bool
    ensures { IsTrue result ↔ ((c : ConflictsData) × (conflicts.now ≡ Some c) × AreAllHit c loss) }
{
    match conflicts {
        Some(conflicts) => conflicts.are_hit(loss),
        None => false,
    }
}

impl Walks {
    /// No plans yet.
    pub fn new(alloc: Global) -> Self
        ensures empty { result.plans.items ≡ [] }
        ensures walks { (C : CatalogData) (F : FileContents) (first : Sites) → AreWalks C F first result }
    {
        Walks {
            plans: Vec::new(alloc),
        }
    }

    /// Whether a plan was walked, and led to no table or to one with a conflict that a loss misses.
    fn refutes_plan(&self, plan: &Plan, loss: Loss) -> bool
        ensures { IsTrue result ↔ ((k : WalkedPlanData) × IsIn k self.now.plans.items × (k.plan ≡ plan.now)
            × ((c : ConflictsData) → k.conflicts ≡ Some c → ¬ AreAllHit c loss)) }
    {
        for walked in &self.plans {
            if is_same(&walked.plan, plan) && !is_hit(&walked.conflicts, loss) {
                return true;
            }
        }
        false
    }

    /// Whether the result of a walked plan shows that what survives a safe loss holds no table.
    pub fn refutes(&self, catalog: &Catalog, loss: Loss) -> bool
        ensures refuted { IsTrue result ↔ IsRefuted catalog.now loss self.now }
        ensures none_held { IsTrue result → (F : FileContents) (first : Sites)
            → AreWalks catalog.now F first self.now → IsWithin first loss → IsSafe catalog.now loss
            → (T : List Row) → ¬ HoldsSurvivors catalog.now F loss T }
    {
        match catalog.safety {
            Safety::Whole => match plan(catalog, loss) {
                Some(plan) => self.refutes_plan(&plan, loss),
                None => false,
            },
            Safety::Rows => false,
        }
    }

    /// Stores the result of the walk of a loss.
    pub fn keep(
        &mut self,
        catalog: &Catalog,
        loss: Loss,
        conflicts: Option<Conflicts>,
    ) -> Result<(), AllocError>
        ensures kept { OnOk result (IsPlanKept catalog.now loss conflicts self.old self.new) }
        ensures walks { OnOk result ((F : FileContents) (first : Sites)
            → IsWalkOutcome catalog.now F first loss conflicts → AreWalks catalog.now F first self.old
            → AreWalks catalog.now F first self.new) }
    {
        match catalog.safety {
            Safety::Whole => match plan(catalog, loss) {
                Some(plan) => {
                    self.plans.push(WalkedPlan { plan, conflicts })?;
                    Ok(())
                }
                None => Ok(()),
            },
            Safety::Rows => Ok(()),
        }
    }
}
