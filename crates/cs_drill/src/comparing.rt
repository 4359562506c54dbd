//! Comparing what was rebuilt of a loss with what stands.
ghost use Rattle.std.specs.Prelude.{[], IfOk};
ghost use Rattle.cs_store.specs.FileSet.{contents_of};
ghost use Rattle.cs_rebuild.specs.Steps.{AreRead};
ghost use Rattle.cs_drill.specs.Drills.{IsRebuilt, Recovers};

use crate::standing::first_other;
use crate::trial::Rebuilt;
use cs_diagnosis::{Remains, find_candidate};
use cs_rebuild::{FileSet, Gate, Run};
use cs_rows::Survivors;
use cs_schema::{Catalog, Loss};
use std::alloc::AllocError;
use std::marker::Sync;
use std::thread::Threads;

/// A store whose files were loaded, and read with none of them lost.
#[derive(Clone, Copy)]
pub struct Standing<'a> {
    pub catalog: &'a Catalog,
    pub files: &'a FileSet,
    pub survivors: &'a Survivors<'a>,
}

/// What stands beside the files that recover a loss.
pub fn compare<R: Threads + Sync, G: Gate + Sync>(
    run: &Run<'_, R, G>,
    store: &Standing<'_>,
    loss: Loss,
    rebuilt: &FileSet,
) -> Result<Rebuilt, AllocError>
    requires read { AreRead store.now.catalog.now (contents_of store.now.files.now) [] store.now.survivors.now }
    requires recovers { Recovers store.now.catalog.now (contents_of store.now.files.now) loss rebuilt.now }
    ensures { IfOk result (IsRebuilt store.now.catalog.now (contents_of store.now.files.now) loss) }
{
    let _rules = store.catalog.projection_count();
    let none = Loss::none();
    let remains = Remains {
        catalog: store.catalog,
        first: none,
        survivors: store.survivors,
    };
    match find_candidate(run, &remains, loss) {
        Ok(Some(candidate)) => Ok(Rebuilt {
            rows: candidate.store.walked.rows() as u64,
            files: rebuilt.len() as u64,
            is_same: candidate.conflicts.are_hit(none),
            first_other: first_other(store.files, rebuilt),
        }),
        // the other files hold the table that was rebuilt
        Ok(None) => unreachable!(),
        Err(refused) => Err(refused),
    }
}
