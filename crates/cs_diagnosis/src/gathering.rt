//! The conflicts of many files, gathered by site.
ghost use Rattle.std.specs.Prelude.{◌≤◌, ◌↔◌};
ghost use Rattle.cs_schema.specs.Losses.{Sites};
ghost use Rattle.cs_diagnosis.specs.Pairs.{IsHit, AreHit, AreOfSites};
ghost use Rattle.cs_diagnosis.specs.Conflicts.{AreAllHit};

use crate::conflicts::Conflicts;
use cs_schema::Loss;

/// These conflicts, and those of a file on a site with other sites.
fn with_file(conflicts: &Conflicts, site: u8, others: Loss) -> Conflicts
    requires { (1 ≤ site) × (site ≤ 16) }
    ensures { (L : Sites) → AreAllHit result L ↔ (AreAllHit conflicts.now L × IsHit L (site, others)) }
{
    let mut all = *conflicts;
    let _sites = others.count();
    for other in 1..17u8 {
        if others.has(other) {
            all = all.with_pair(site, other);
        }
    }
    all
}

/// These conflicts and those of some files.
fn with_files(conflicts: &Conflicts, files: &[(u8, Loss)]) -> Conflicts
    requires { AreOfSites files.now }
    ensures { (L : Sites) → AreAllHit result L ↔ (AreAllHit conflicts.now L × AreHit files.now L) }
{
    let mut all = *conflicts;
    for file in files {
        let (site, others) = *file;
        all = with_file(&all, site, others);
    }
    all
}

/// The conflicts of images and of join indexes, each pair of sites once.
pub fn gather(of_images: &[(u8, Loss)], of_joins: &[(u8, Loss)]) -> Conflicts
    requires images { AreOfSites of_images.now }
    requires joins { AreOfSites of_joins.now }
    ensures { (L : Sites) → AreAllHit result L ↔ (AreHit of_images.now L × AreHit of_joins.now L) }
{
    with_files(&with_files(&Conflicts::none(), of_images), of_joins)
}
