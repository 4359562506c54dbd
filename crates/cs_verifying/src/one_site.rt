//! The files of one site alone.
ghost use Rattle.std.specs.Prelude.{◌≡◌, ◌⊎◌, ◌<◌, ◌≤◌, ◌==◌, ◌&&◌, ◌||◌, ℕ, not, IfSome, IsSomeAnd, IfErr, OnOk, OnErr};
ghost use Rattle.cs_schema.specs.Lists.{member};
ghost use Rattle.pinepolo_places.specs.Status.{status_of};
ghost use Rattle.cs_verifying.specs.Promises.{AreOthers};

use cs_schema::{Catalog, Loss};
use pinepolo_places::{REFUSED, Refusal, VerbError};
use std::alloc::Global;

/// A loss with one more site, unless it is the site that is kept.
fn with_unless(lost: Loss, other: u8, kept: u8) -> Loss
    requires low { 1 ≤ other }
    requires high { other ≤ 16 }
    ensures { (s : ℕ) → member result s ≡ ((not (other == kept) && s == other) || member lost s) }
{
    if other == kept {
        lost
    } else {
        lost.with(other)
    }
}

/// The loss of each site but this one.
fn all_but(site: u8) -> Loss
    ensures { (s : ℕ) → 1 ≤ s → s ≤ 16 → member result s ≡ not (s == site) }
{
    let mut lost = Loss::none();
    for other in 1..17u8 {
        lost = with_unless(lost, other, site);
    }
    lost
}

/// The loss of each site but this one; of none if no site is given.
pub fn others(site: Option<u8>) -> Loss
    ensures { AreOthers site result }
{
    match site {
        Some(site) => all_but(site),
        None => Loss::none(),
    }
}

/// Refuses a site that is given and that the catalog of the store at this path lacks.
pub fn require_site(
    alloc: Global,
    catalog: &Catalog,
    site: Option<u8>,
    path: &str,
) -> Result<(), VerbError>
    ensures ok { OnOk result (IfSome site (λ n. n ≤ catalog.now.sites)) }
    ensures err { OnErr result (IsSomeAnd site (λ n. catalog.now.sites < n)) }
    ensures status { IfErr result (λ error. (status_of error ≡ REFUSED) ⊎ (error ≡ VerbError.OutOfMemory)) }
{
    let Some(number) = site else {
        return Ok(());
    };
    if number <= catalog.sites {
        return Ok(());
    }
    Err(VerbError::refused(alloc, Refusal::NoSuchSite(number), path))
}
