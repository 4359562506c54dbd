//! The missing files of a store, and the complement of a loss.
ghost use Rattle.std.specs.Prelude.{◌≡◌, ◌≤◌, ℕ, not, None, IfOk};
ghost use Rattle.cs_schema.specs.FileNames.{HasName};
ghost use Rattle.cs_schema.specs.Lists.{member, IsIn};
ghost use Rattle.cs_schema.specs.declared.file_name.FileName.{FileName as NameData};
ghost use Rattle.cs_store.specs.FileSet.{contents_of};
ghost use Rattle.cs_inspection.specs.declared.badness.Badness.{Badness as BadnessData};

use cs_inspection::Badness;
use cs_schema::{Catalog, FileName, Loss};
use cs_store::FileSet;
use std::alloc::{AllocError, Global};

/// The names of a catalog without a file, ascending.
pub fn missing_files(
    alloc: Global,
    catalog: &Catalog,
    files: &FileSet,
) -> Result<Vec<(FileName, Badness)>, AllocError>
    ensures each { IfOk result (λ missing. (b : NameData × BadnessData) → IsIn b missing.items
        → HasName catalog.now b.0 × (contents_of files.now b.0 ≡ None)) }
    ensures all { IfOk result (λ missing. (n : NameData) → HasName catalog.now n
        → contents_of files.now n ≡ None → IsIn (n, BadnessData.Missing) missing.items) }
{
    let _rules = catalog.projection_count();
    let names = catalog.surviving(alloc, Loss::none())?;
    let mut missing = Vec::new(alloc);
    for name in &names {
        match files.get(*name) {
            Some(_) => {}
            None => missing.push((*name, Badness::Missing))?,
        }
    }
    Ok(missing)
}

/// All sites from 1 to 16, except those of a loss.
pub fn others(loss: Loss) -> Loss
    ensures { (x : ℕ) → 1 ≤ x → x ≤ 16 → member result x ≡ not (member loss x) }
{
    let mut others = Loss::none();
    for site in 1..17u8 {
        if !loss.has(site) {
            others = others.with(site);
        }
    }
    others
}
