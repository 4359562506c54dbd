//! K-safety: the first unsafe loss of at most k sites.
ghost use Rattle.std.specs.Prelude.{◌≡◌, ℕ, ◌+◌, ◌<◌, ◌≤◌, IsTrue, IfOk, IfErr};
ghost use Rattle.cs_schema.specs.Lists.{member};
ghost use Rattle.cs_schema.specs.CatalogRules.{IsCatalog};
ghost use Rattle.cs_safety.specs.Safety.{IsKSafe};
ghost use Rattle.cs_safety.specs.LossSearch.{IsFirstUnsafeTail};
ghost use Rattle.cs_safety.specs.Reach.{IsGraphOf};
ghost use Rattle.cs_safety.specs.SafetyFault.{IsSafetyFault};

use crate::graph::Graph;
use crate::{graph, losses};
use cs_schema::{Catalog, Loss};
use thiserror::Error;

/// Why a catalog is not safe for losses of at most k sites.
#[derive(Debug, Clone, Copy, PartialEq, Eq, Error)]
pub enum SafetyFault {
    #[error("k above 3")]
    BadK,
    /// The first unsafe loss: fewer sites first, then by site numbers.
    #[error("unsafe loss: {0}")]
    Unsafe(Loss),
}

/// The number of sites.
fn site_count(catalog: &Catalog) -> u8
    ensures count { result ≡ catalog.now.sites }
    ensures rules { IsCatalog catalog.now }
{
    catalog.sites
}

/// The first unsafe loss that adds `count` sites, from `from` on, to the chosen ones.
fn first_unsafe(catalog: &Catalog, graph: &Graph, chosen: Loss, from: u8, count: u8) -> Option<Loss>
    requires graph { IsGraphOf catalog.now graph.now }
    requires low { 1 ≤ from }
    requires high { from ≤ catalog.now.sites + 1 }
    requires below { (x : ℕ) → IsTrue (member chosen x) → x < from }
    ensures { IsFirstUnsafeTail catalog.now chosen from count result }
{
    if count == 0 {
        return if losses::is_safe(catalog, graph, chosen) {
            None
        } else {
            Some(chosen)
        };
    }
    for site in from..site_count(catalog) + 1 {
        match first_unsafe(catalog, graph, chosen.with(site), site + 1, count - 1) {
            Some(loss) => return Some(loss),
            None => {}
        }
    }
    None
}

/// Whether each loss of at most `k` sites is safe, and otherwise why not.
pub fn ksafe(catalog: &Catalog, k: u8) -> Result<(), SafetyFault>
    ensures limit { IfOk result (λ _. k ≤ 3) }
    ensures safe { IfOk result (λ _. IsKSafe catalog.now k) }
    ensures refused { IfErr result (IsSafetyFault catalog.now k) }
{
    if k > 3 {
        return Err(SafetyFault::BadK);
    }
    let graph = graph::graph_of(catalog);
    for count in 0..k + 1 {
        match first_unsafe(catalog, &graph, Loss::none(), 1, count) {
            Some(loss) => return Err(SafetyFault::Unsafe(loss)),
            None => {}
        }
    }
    Ok(())
}
