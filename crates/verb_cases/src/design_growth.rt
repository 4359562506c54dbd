//! How fatal losses change as more sites are lost.
use anyhow::Result;
use cs_design::fatal_losses;
use cs_design::within::{either, is_within};
use cs_schema::{Catalog, Loss};
use std::alloc::Global;

/// Whether one of these losses is within another.
fn has_one_within(losses: &[Loss], loss: Loss) -> bool {
    losses.iter().any(|each| is_within(*each, loss))
}

/// How many losses of at most two sites, beside which one more was lost, left no fatal loss larger than before: each
/// fatal loss beside fewer sites holds, with the further site, one beside more. The first that does is the error.
pub fn growth(alloc: Global, catalog: &Catalog) -> Result<Option<Loss>> {
    for first in 1..17u8 {
        for second in first..17u8 {
            let lost = Loss::none().with(first).with(second);
            if second <= catalog.sites && has_grown(alloc, catalog, lost)? {
                return Ok(Some(lost));
            }
        }
    }
    Ok(None)
}

/// Whether a fatal loss beside these sites is larger than beside fewer of them.
fn has_grown(alloc: Global, catalog: &Catalog, lost: Loss) -> Result<bool> {
    let before = fatal_losses(alloc, catalog, Loss::none())?;
    let after = fatal_losses(alloc, catalog, lost)?;
    for loss in &before {
        let held = either(*loss, lost);
        if !has_one_within(after.as_slice(), held) {
            return Ok(true);
        }
    }
    for loss in &after {
        let whole = either(*loss, lost);
        if !has_one_within(before.as_slice(), whole) {
            return Ok(true);
        }
    }
    Ok(false)
}
