//! Scratch space for walks by rows.
ghost use Rattle.std.specs.Prelude.{Bool, IfOk};
ghost use Rattle.cs_schema.specs.CatalogRules.{IsCatalog};
ghost use Rattle.cs_rows.specs.RowSteps.{AreColumnSources};

use crate::column_sources::ColumnSources;
use crate::levels::{JoinTarget, ReachedRows};
use cs_schema::Catalog;
use std::alloc::{AllocError, Global};

/// Scratch space for the walk from one row, allocated once for all rows.
#[derive(Drop)]
pub(crate) struct Scratch {
    pub(crate) reached_rows: ReachedRows,
    pub(crate) landings: Vec<(u16, JoinTarget)>,
    pub(crate) sources: ColumnSources,
}

/// Scratch space for walks by rows under a catalog.
pub(crate) fn new_scratch(alloc: Global, catalog: &Catalog) -> Result<Scratch, AllocError>
    ensures sources { IfOk result (λ scratch. (fresh_only : Bool) → AreColumnSources fresh_only catalog.now scratch.sources) }
    ensures rules { IsCatalog catalog.now }
{
    let projections = catalog.projection_count() as usize;
    let columns = catalog.column_count();
    Ok(Scratch {
        reached_rows: ReachedRows::new(alloc, projections)?,
        landings: Vec::with_capacity(alloc, projections)?,
        sources: ColumnSources::new(alloc, projections, columns)?,
    })
}
