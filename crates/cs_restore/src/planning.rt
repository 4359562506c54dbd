//! Plans a restore without changing anything.
ghost use Rattle.std.specs.Prelude.{◌≡◌, ◌⊎◌, ◌<◌, ◌≤◌, ℕ, [], Ok, Some, IfOk, IfErr, MatchOption};
ghost use Rattle.std.specs.List.{slice_get};
ghost use Rattle.cs_schema.specs.FileNames.{surviving};
ghost use Rattle.cs_schema.specs.Lists.{IsIn};
ghost use Rattle.cs_store.specs.Fault.{MemoryOr};
ghost use Rattle.cs_store.specs.FileSet.{Files, contents_of};
ghost use Rattle.cs_shelf.specs.Faults.{FailsToRead};
ghost use Rattle.cs_shelf.specs.Shelf.{ChangesNothing, IsReadOf};
ghost use Rattle.cs_restore.specs.Refusals.{IsFirstUnread, IsRefusedBack, IsRefusedPlan};
ghost use Rattle.cs_restore.specs.Restoring.{AreSurvivorsRead, PlansFor, ReadsBack};

use crate::comparing::compare;
use crate::step::Step;
use cs_rebuild::{Gate, Run, check_owned, rebuild_gated};
use cs_schema::{Catalog, FileName, Loss};
use cs_shelf::{Shelf, load_held};
use cs_store::{Fault, FileSet, Readable};
use std::alloc::{AllocError, Global};
use std::marker::Sync;
use std::thread::Threads;

/// The rebuilt files, and what has to be done for each.
#[derive(Drop)]
pub struct Plan {
    pub answer: FileSet,
    /// The step for each rebuilt file, ascending by name.
    pub steps: Vec<Step>,
    /// The names that do not have the rebuilt bytes yet, ascending.
    pub changes: Vec<FileName>,
}

/// The first surviving name whose file could not be read.
fn unread(
    alloc: Global,
    catalog: &Catalog,
    loss: Loss,
    unreadable: &[FileName],
) -> Result<Option<FileName>, AllocError>
    ensures { IfOk result (λ found. MatchOption found (AreSurvivorsRead catalog.now loss unreadable.now)
        (IsFirstUnread catalog.now loss unreadable.now)) }
{
    let _rules = catalog.projection_count();
    let names = catalog.surviving(alloc, loss)?;
    for name in &names {
        if unreadable.contains(name) {
            return Ok(Some(*name));
        }
    }
    Ok(None)
}

/// Plans the restore of a store that lost these sites, given what was read of it. No file changes.
///
/// `Read` names the first surviving file that could not be read; all other refusals are those of `rebuild`.
pub fn plan_restore<R: Threads + Sync, G: Gate + Sync>(
    run: &Run<'_, R, G>,
    catalog: &Catalog,
    loss: Loss,
    read: &Readable,
) -> Result<Plan, Fault>
    ensures plan { IfOk result (λ plan. (d : Files) → IsReadOf (surviving catalog.now []) read.now.files read.now.unreadable.items d
        → PlansFor catalog.now loss plan.answer plan.changes.items d) }
    ensures refused { IfErr result (λ fault. MemoryOr fault (IsRefusedPlan catalog.now loss read.now fault)) }
{
    let _rules = catalog.projection_count();
    let (workers, cut) = (run.workers, run.cut);
    match unread(run.alloc, catalog, loss, read.unreadable.as_slice()) {
        Ok(None) => {}
        Ok(Some(name)) => return Err(Fault::Read(name)),
        Err(_) => return Err(Fault::Memory),
    }
    let answer = match rebuild_gated(
        run.rt,
        run.alloc,
        catalog,
        &read.files,
        loss,
        workers,
        cut,
        run.gate,
    ) {
        Ok(answer) => answer,
        Err(fault) => return Err(fault),
    };
    match compare(run.alloc, read, &answer) {
        Ok(compared) => Ok(Plan {
            answer,
            steps: compared.steps,
            changes: compared.changes,
        }),
        Err(_) => Err(Fault::Memory),
    }
}

/// Reads the whole store back and checks it with no loss; returns its number of rows. No file changes.
pub fn check_held<S: Shelf, R: Threads + Sync, G: Gate + Sync>(
    run: &Run<'_, R, G>,
    catalog: &Catalog,
    shelf: &mut S,
) -> Result<u64, Fault>
    ensures accepted { IfOk result (ReadsBack catalog.now (S.holds shelf.new)) }
    ensures unchanged { ChangesNothing S.holds S.may_leave S.kept S.moment S.left_since shelf.old shelf.new }
    ensures refused { IfErr result (λ fault. MemoryOr fault
        (FailsToRead (S.fault_count shelf.old) (S.fault_count shelf.new) fault ⊎ IsRefusedBack catalog.now (S.holds shelf.new) fault)) }
    ensures counted { S.fault_count shelf.old ≤ S.fault_count shelf.new }
{
    let read = match load_held(run.alloc, catalog, Loss::none(), shelf) {
        Ok(read) => read,
        Err(fault) => return Err(fault),
    };
    check_owned(run, catalog, 0, read)
}
