//! Trying all losses of a store.
ghost use Rattle.std.specs.Prelude.{◌≡◌, ◌≤◌, IfOk, IfErr, []};
ghost use Rattle.cs_store.specs.Fault.{MemoryOr};
ghost use Rattle.cs_store.specs.FileSet.{contents_of};
ghost use Rattle.cs_rebuild.specs.Steps.{AreRead, IsBadFile};
ghost use Rattle.cs_drill.specs.Drills.{AreTrials};

use crate::comparing::Standing;
use crate::trial::Trial;
use crate::trying::try_loss;
use cs_design::order::all_losses;
use cs_rebuild::{Fault, FileSet, Run, read_store};
use cs_schema::{Catalog, Loss};
use pinepolo_progress::Progress;
use std::alloc::AllocError;
use std::marker::Sync;
use std::thread::Threads;

/// What is told of each trial as it ends. It can change no answer.
pub trait Watch {
    /// A trial has ended, which began as the one before it ended.
    fn ended(&mut self, trial: &Trial) -> Result<(), AllocError>;
}

/// The trials of all losses of at most so many sites.
fn try_losses<R: Threads + Sync, G: Progress + Sync, W: Watch>(
    run: &Run<'_, R, G>,
    store: &Standing<'_>,
    at_most: u8,
    watch: &mut W,
) -> Result<Vec<Trial>, AllocError>
    requires at_most { at_most ≤ 16 }
    requires read { AreRead store.now.catalog.now (contents_of store.now.files.now) [] store.now.survivors.now }
    ensures { IfOk result (λ trials. AreTrials store.now.catalog.now (contents_of store.now.files.now) at_most trials.items) }
{
    let losses = all_losses(run.alloc, store.catalog, at_most)?;
    let mut trials = Vec::new(run.alloc);
    for loss in &losses {
        run.gate.tried(*loss);
        let trial = try_loss(run, store, *loss)?;
        watch.ended(&trial)?;
        trials.push(trial)?;
    }
    Ok(trials)
}

/// Rebuilds each loss of at most so many sites from the other files of a store, in memory, and compares it with what stands;
/// in the order of losses, from the loss of no site. Each is tried, whatever the ones before it came to. Or the refusal of the
/// least bad file: without one nothing is lost yet.
pub fn drill<R: Threads + Sync, G: Progress + Sync, W: Watch>(
    run: &Run<'_, R, G>,
    catalog: &Catalog,
    files: &FileSet,
    at_most: u8,
    watch: &mut W,
) -> Result<Vec<Trial>, Fault>
    requires { at_most ≤ 16 }
    ensures ok { IfOk result (λ trials. AreTrials catalog.now (contents_of files.now) at_most trials.items) }
    ensures err { IfErr result (λ fault. MemoryOr fault (IsBadFile catalog.now (contents_of files.now) [] fault)) }
{
    let survivors = match read_store(run, catalog, Loss::none(), files) {
        Ok(survivors) => survivors,
        Err(fault) => return Err(fault),
    };
    let store = Standing {
        catalog,
        files,
        survivors: &survivors,
    };
    match try_losses(run, &store, at_most, watch) {
        Ok(trials) => Ok(trials),
        Err(_) => Err(Fault::Memory),
    }
}
