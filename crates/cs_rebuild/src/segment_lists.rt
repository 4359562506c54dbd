//! The segments that survive a loss, and their join indexes, in the order of names.
ghost use Rattle.std.specs.Prelude.{◌≡◌, ◌≤◌, ℕ, length, IfOk};
ghost use Rattle.cs_schema.specs.CatalogData.{HasSegment};
ghost use Rattle.cs_schema.specs.CatalogRules.{IsCatalog};
ghost use Rattle.cs_schema.specs.Lists.{IsIn};
ghost use Rattle.cs_recovery.specs.Verdicts.{surviving_segments};
ghost use Rattle.cs_rebuild.specs.Surveys.{joins_among};

use cs_schema::{Catalog, Loss};
use std::alloc::{AllocError, Global};

/// The segments that survive a loss.
pub fn surviving_segments(
    alloc: Global,
    catalog: &Catalog,
    loss: Loss,
) -> Result<Vec<(u16, u16)>, AllocError>
    ensures rules { IsCatalog catalog.now }
    ensures few { IfOk result (λ segments. length segments.items ≤ 128) }
    ensures all { IfOk result (λ segments. segments.items ≡ surviving_segments catalog.now loss) }
{
    let mut segments = Vec::new(alloc);
    for p in 0..catalog.projection_count() {
        for s in 0..catalog.segments(p) {
            if catalog.lost(p, s, loss) {
                continue;
            }
            segments.push((p, s))?;
        }
    }
    Ok(segments)
}

/// The join indexes of some segments.
pub fn joins_of(
    alloc: Global,
    catalog: &Catalog,
    segments: &[(u16, u16)],
) -> Result<Vec<(u16, u16, u16)>, AllocError>
    requires few { length segments.now ≤ 128 }
    requires exist { (a : ℕ × ℕ) → IsIn a segments.now → HasSegment catalog.now a.0 a.1 }
    ensures few { IfOk result (λ joins. length joins.items ≤ 1024) }
    ensures all { IfOk result (λ joins. joins.items ≡ joins_among catalog.now segments.now) }
{
    let mut joins = Vec::new(alloc);
    for i in 0..segments.len() {
        let (p, s) = segments[i];
        for q in 0..catalog.projection_count() {
            if !catalog.has_join(p, q) {
                continue;
            }
            joins.push((p, s, q))?;
        }
    }
    Ok(joins)
}
