//! What a catalog says of losses.
ghost use Rattle.std.specs.Prelude.{IfOk};
ghost use Rattle.cs_reports.specs.Design.{IsDesign};

use cs_design::{fatal_losses, files_of_site, greatest_k};
use cs_schema::{Catalog, FileName, Loss};
use std::alloc::{AllocError, Global};

/// What a catalog says of losses beside the sites that are lost already.
#[derive(Drop)]
pub struct Design {
    /// The sites that are lost already.
    pub lost: Loss,
    /// The greatest number of further sites of which any may fail; none where what is lost is unsafe.
    pub k: Option<u8>,
    /// The least losses of further sites that must not come, in the order of losses.
    pub fatal: Vec<Loss>,
    /// The names of the files of each site, from site 1 on.
    pub files: Vec<Vec<FileName>>,
}

/// The names of the files of each site.
fn files_of_sites(alloc: Global, catalog: &Catalog) -> Result<Vec<Vec<FileName>>, AllocError> {
    let mut files = Vec::new(alloc);
    for site in 1..17u8 {
        if site <= catalog.sites {
            files.push(files_of_site(alloc, catalog, site)?)?;
        }
    }
    Ok(files)
}

/// What a catalog says of losses beside what is `lost` already.
pub fn design_of(alloc: Global, catalog: &Catalog, lost: Loss) -> Result<Design, AllocError>
    ensures { IfOk result (IsDesign catalog.now lost) }
{
    let fatal = fatal_losses(alloc, catalog, lost)?;
    let files = files_of_sites(alloc, catalog)?;
    Ok(Design {
        lost,
        k: greatest_k(catalog, lost),
        fatal,
        files,
    })
}
