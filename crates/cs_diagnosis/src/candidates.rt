//! The table to which the survivors of a loss lead, with its conflicts.
ghost use Rattle.std.specs.Prelude.{IfOk, MatchOption};
ghost use Rattle.cs_schema.specs.CatalogRules.{IsCatalog};
ghost use Rattle.cs_schema.specs.FileNames.{FileContents};
ghost use Rattle.cs_recovery.proofs.CatalogFacts.{IsCatalog-prop};
ghost use Rattle.cs_safety.specs.Safety.{IsSafe};
ghost use Rattle.cs_safety.specs.Within.{IsWithin};
ghost use Rattle.cs_rebuild.specs.Steps.{AreRead};
ghost use Rattle.cs_diagnosis.specs.Candidates.{HasNoTable, IsCandidate};

use crate::candidate::Candidate;
use crate::judging::conflicts_of;
use cs_rebuild::{Fault, Gate, OrderedStore, Run, order_store, store_of};
use cs_rows::Survivors;
use cs_schema::{Catalog, Loss};
use std::alloc::AllocError;
use std::marker::Sync;
use std::thread::Threads;

/// What survives a first loss of a store. It is read once for all losses that contain that one.
#[derive(Drop)]
pub struct Remains<'a> {
    pub catalog: &'a Catalog,
    /// The first loss.
    pub first: Loss,
    pub survivors: &'a Survivors<'a>,
    pub ghost rules: { IsCatalog catalog.now } by { IsCatalog-prop catalog.now },
}

/// The table to which the survivors of a safe loss lead, with its conflicts; `None` if they lead to no table.
pub fn find_candidate<'a, R: Threads + Sync, G: Gate + Sync>(
    run: &Run<'_, R, G>,
    remains: &Remains<'a>,
    loss: Loss,
) -> Result<Option<Candidate<'a>>, AllocError>
    requires safe { IsSafe remains.now.catalog.now loss }
    requires within { IsWithin remains.now.first loss }
    requires read { (F : FileContents) × AreRead remains.now.catalog.now F remains.now.first remains.now.survivors.now }
    ensures { IfOk result (λ found. (F : FileContents)
        → AreRead remains.now.catalog.now F remains.now.first remains.now.survivors.now
        → MatchOption found (HasNoTable remains.now.catalog.now F remains.now.first loss)
        (IsCandidate remains.now.catalog.now F remains.now.first loss)) }
{
    let catalog = remains.catalog;
    let store = match order_store(run, catalog, loss, remains.survivors) {
        Ok(store) => store,
        Err(fault) => {
            return match fault {
                Fault::Memory => Err(AllocError),
                _ => Ok(None),
            };
        }
    };
    let OrderedStore { walked, orders, .. } = store;
    let store = store_of(catalog, remains.first, remains.survivors, walked, orders);
    let conflicts = conflicts_of(run, &store)?;
    Ok(Some(Candidate { store, conflicts }))
}
