//! The sites of bad files. Every accepted loss contains them.
ghost use Rattle.std.specs.Prelude.{◌≡◌, ◌≤◌, ◌↔◌, ℕ, IsTrue};
ghost use Rattle.cs_schema.specs.FileNames.{HasName};
ghost use Rattle.cs_schema.specs.Lists.{member, IsIn};
ghost use Rattle.cs_recovery.specs.Conflicts.{site_of};
ghost use Rattle.cs_inspection.specs.declared.badness.Badness.{Badness as BadnessData};
ghost use Rattle.cs_schema.specs.declared.file_name.FileName.{FileName as NameData};
ghost use Rattle.cs_diagnosis.specs.Forced.{IsBadSite};

use cs_inspection::Badness;
use cs_schema::{Catalog, FileName, Loss};

/// The site of a file.
fn site_of(catalog: &Catalog, name: FileName) -> u8
    requires { HasName catalog.now name }
    ensures site { result ≡ site_of catalog.now name }
    ensures range { (1 ≤ result) × (result ≤ 16) }
{
    catalog.site(name.projection(), name.segment())
}

/// The sites of bad files.
pub fn bad_sites(catalog: &Catalog, bad: &[(FileName, Badness)]) -> Loss
    requires { (b : NameData × BadnessData) → IsIn b bad.now → HasName catalog.now b.0 }
    ensures { (x : ℕ) → IsTrue (member result x) ↔ IsBadSite catalog.now bad.now x }
{
    let mut sites = Loss::none();
    for file in bad {
        sites = sites.with(site_of(catalog, file.0));
    }
    sites
}
