//! The names of the files that a restore may change.
use cs_schema::{Catalog, FileName, Loss};
use std::alloc::{AllocError, Global};

/// The projections that have files under names which don't survive. The names that survive ascend.
fn lost_projections(
    alloc: Global,
    all: &[FileName],
    surviving: &[FileName],
) -> Result<Vec<u16>, AllocError> {
    let mut projections = Vec::new(alloc);
    for name in all {
        let p = name.projection();
        if surviving.binary_search(name).is_err() && !projections.as_slice().contains(&p) {
            projections.push(p)?;
        }
    }
    Ok(projections)
}

/// The names of the files that a restore of what these sites lost may change, ascending: those of lost segments, and the join
/// indexes that lead to projections with lost segments.
pub fn rebuilt_names(
    alloc: Global,
    catalog: &Catalog,
    lost: Loss,
) -> Result<Vec<FileName>, AllocError> {
    let all = catalog.surviving(alloc, Loss::none())?;
    let surviving = catalog.surviving(alloc, lost)?;
    let projections = lost_projections(alloc, all.as_slice(), surviving.as_slice())?;
    let mut names = Vec::new(alloc);
    for name in &all {
        let leads_to_lost = match *name {
            FileName::Jix { q, .. } => projections.as_slice().contains(&q),
            _ => false,
        };
        if leads_to_lost || surviving.as_slice().binary_search(name).is_err() {
            names.push(*name)?;
        }
    }
    Ok(names)
}
