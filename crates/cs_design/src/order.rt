//! The losses of a catalog in their order: fewer sites first, then by site numbers.
ghost use Rattle.std.specs.Prelude.{◌≡◌, ℕ, ◌+◌, ◌<◌, ◌≤◌, ◌++◌, IsTrue, IfOk, OnOk};
ghost use Rattle.cs_schema.specs.Lists.{member};
ghost use Rattle.cs_schema.specs.CatalogRules.{IsCatalog};
ghost use Rattle.cs_design.specs.Order.{losses_from, AreAllLosses};

use cs_schema::{Catalog, Loss};
use std::alloc::{AllocError, Global};

/// Appends the losses that add `count` sites, from `from` on, to the chosen ones.
fn add_losses(
    losses: &mut Vec<Loss>,
    sites: u8,
    chosen: Loss,
    from: u8,
    count: u8,
) -> Result<(), AllocError>
    requires few { sites ≤ 16 }
    requires low { 1 ≤ from }
    requires high { from ≤ sites + 1 }
    requires below { (x : ℕ) → IsTrue (member chosen x) → x < from }
    ensures { OnOk result (losses.new.items ≡ losses.old.items ++ losses_from sites chosen from count) }
{
    if count == 0 {
        losses.push(chosen)?;
        return Ok(());
    }
    for site in from..sites + 1 {
        add_losses(losses, sites, chosen.with(site), site + 1, count - 1)?;
    }
    Ok(())
}

/// The losses of at most `at_most` of the catalog's sites.
pub fn all_losses(alloc: Global, catalog: &Catalog, at_most: u8) -> Result<Vec<Loss>, AllocError>
    requires { at_most ≤ 16 }
    ensures { IfOk result (λ losses. AreAllLosses catalog.now at_most losses.items) }
{
    let sites = site_count(catalog);
    let mut losses = Vec::new(alloc);
    for count in 0..at_most + 1 {
        add_losses(&mut losses, sites, Loss::none(), 1, count)?;
    }
    Ok(losses)
}

/// The number of sites.
pub(crate) fn site_count(catalog: &Catalog) -> u8
    ensures count { result ≡ catalog.now.sites }
    ensures few { result ≤ 16 }
    ensures rules { IsCatalog catalog.now }
{
    catalog.sites
}
