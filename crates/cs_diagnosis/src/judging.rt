//! One pass over all files to find the conflicts of a table.
ghost use Rattle.std.specs.Prelude.{IfOk};
ghost use Rattle.cs_schema.specs.FileNames.{FileContents};
ghost use Rattle.cs_rebuild.specs.OnStore.{table_on};
ghost use Rattle.cs_rebuild.specs.Steps.{AreRead};
ghost use Rattle.cs_diagnosis.specs.Candidates.{AreConflictsOf};

use crate::conflicts::Conflicts;
use crate::gathering::gather;
use crate::images::images_conflicts;
use crate::joins::joins_conflicts;
use cs_rebuild::{Gate, OrderedStore, Run, joins_of, surviving_segments};
use std::alloc::AllocError;
use std::marker::Sync;
use std::thread::Threads;

/// The conflicts of a store's table with the files that survive the store's loss. Fails only if memory is refused.
pub fn conflicts_of<R: Threads + Sync, G: Gate + Sync>(
    run: &Run<'_, R, G>,
    store: &OrderedStore<'_>,
) -> Result<Conflicts, AllocError>
    ensures { IfOk result (λ found. (F : FileContents)
        → AreRead store.now.catalog.now F store.now.loss store.now.survivors.now
        → AreConflictsOf store.now.catalog.now F store.now.loss (table_on store.now) found) }
{
    let _rules = store.catalog.projection_count();
    let segments = surviving_segments(run.alloc, store.catalog, store.loss)?;
    let joins = joins_of(run.alloc, store.catalog, segments.as_slice())?;
    let of_images = images_conflicts(run, store, segments.as_slice())?;
    let of_joins = joins_conflicts(run, store, joins.as_slice())?;
    Ok(gather(of_images.as_slice(), of_joins.as_slice()))
}
