//! Trying one loss.
ghost use Rattle.std.specs.Prelude.{◌≡◌, IfOk, Err, []};
ghost use Rattle.cs_store.specs.FileSet.{contents_of};
ghost use Rattle.cs_recovery.specs.Claims.{IsRebuildAnswer};
ghost use Rattle.cs_rebuild.specs.Steps.{AreRead};
ghost use Rattle.cs_drill.specs.Drills.{IsTrial};

use crate::comparing::{Standing, compare};
use crate::trial::{Outcome, Trial};
use cs_rebuild::{Fault, Gate, Run, rebuild_gated};
use cs_schema::Loss;
use std::alloc::AllocError;
use std::marker::Sync;
use std::thread::Threads;

/// The trial of a loss that was refused.
fn refused(store: &Standing<'_>, loss: Loss, fault: Fault) -> Result<Trial, AllocError>
    requires { IsRebuildAnswer store.now.catalog.now (contents_of store.now.files.now) loss (Err fault) }
    ensures { IfOk result (λ trial. (trial.loss ≡ loss) × IsTrial store.now.catalog.now (contents_of store.now.files.now) trial) }
{
    let _rules = store.catalog.projection_count();
    match fault {
        Fault::Memory => Err(AllocError),
        _ => Ok(Trial {
            loss,
            outcome: Outcome::Refused(fault),
        }),
    }
}

/// Rebuilds what a loss would take, and compares it with what stands.
pub fn try_loss<R: Threads + Sync, G: Gate + Sync>(
    run: &Run<'_, R, G>,
    store: &Standing<'_>,
    loss: Loss,
) -> Result<Trial, AllocError>
    requires { AreRead store.now.catalog.now (contents_of store.now.files.now) [] store.now.survivors.now }
    ensures of { IfOk result (λ trial. trial.loss ≡ loss) }
    ensures trial { IfOk result (IsTrial store.now.catalog.now (contents_of store.now.files.now)) }
{
    let Run {
        rt,
        alloc,
        workers,
        cut,
        gate,
    } = *run;
    let answer = rebuild_gated(
        rt,
        alloc,
        store.catalog,
        store.files,
        loss,
        workers,
        cut,
        gate,
    );
    match answer {
        Ok(rebuilt) => match compare(run, store, loss, &rebuilt) {
            Ok(compared) => Ok(Trial {
                loss,
                outcome: Outcome::Rebuilt(compared),
            }),
            Err(refused) => Err(refused),
        },
        Err(fault) => refused(store, loss, fault),
    }
}
