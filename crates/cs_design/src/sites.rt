//! The files of a site.
ghost use Rattle.std.specs.Prelude.{ℕ, ◌≡◌, ◌≤◌, ◌==◌, not, IfOk};
ghost use Rattle.cs_schema.specs.Lists.{member};
ghost use Rattle.cs_design.specs.Fatal.{AreFilesOfSite};

use crate::order::site_count;
use cs_schema::{Catalog, FileName, Loss};
use std::alloc::{AllocError, Global};

/// All sites but one.
fn all_but(sites: u8, site: u8) -> Loss
    requires { sites ≤ 16 }
    ensures { (x : ℕ) → 1 ≤ x → x ≤ sites → member result x ≡ not (x == site) }
{
    let mut loss = Loss::none();
    for other in 1..sites + 1 {
        if other != site {
            loss = loss.with(other);
        }
    }
    loss
}

/// The names of a site's files, in their order: what survives the loss of all other sites.
pub fn files_of_site(
    alloc: Global,
    catalog: &Catalog,
    site: u8,
) -> Result<Vec<FileName>, AllocError>
    ensures { IfOk result (λ names. AreFilesOfSite catalog.now site names.items) }
{
    let others = all_but(site_count(catalog), site);
    catalog.surviving(alloc, others)
}
