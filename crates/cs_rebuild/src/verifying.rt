//! Verification of what was read of the surviving files.
ghost use Rattle.std.specs.Prelude.{◌≡◌, None, Some, Err, IfOk, IfErr, OnOk};
ghost use Rattle.cs_schema.specs.FileNames.{FileContents};
ghost use Rattle.cs_store.specs.Fault.{MemoryOr};
ghost use Rattle.cs_safety.specs.Safety.{IsSafe};
ghost use Rattle.cs_recovery.specs.Verdicts.{IsVerdict};
ghost use Rattle.cs_rows.specs.Survivors.{contents_of as held_by};
ghost use Rattle.cs_rebuild.specs.OnStore.{IsStoreOf, contradiction_on};
ghost use Rattle.cs_rebuild.specs.Steps.{AreRead, AreOrdered, AreSound, IsUnordered};

use crate::ordered_store::{OrderedStore, store_of};
use crate::ordering::orders_of;
use crate::run::Run;
use crate::segment_lists::{joins_of, surviving_segments};
use crate::sound_store::SoundStore;
use crate::verify_images::verify_images;
use crate::verify_join_indexes::verify_joins;
use crate::walking::walk_all;
use cs_board::Gate;
use cs_rows::Survivors;
use cs_schema::{Catalog, Loss};
use cs_store::Fault;
use std::marker::Sync;
use std::thread::Threads;

/// The rows of the table to which the survivors lead, in their orders, or the first fault that applies: `Astray`,
/// `Twice` or `Full`. `Memory` may take the place of any answer.
pub fn order_store<'a, R: Threads + Sync, G: Gate + Sync>(
    run: &Run<'_, R, G>,
    catalog: &'a Catalog,
    loss: Loss,
    survivors: &'a Survivors<'a>,
) -> Result<OrderedStore<'a>, Fault>
    requires safe { IsSafe catalog.now loss }
    requires read { (F : FileContents) × AreRead catalog.now F loss survivors.now }
    ensures ok { IfOk result (λ store. AreOrdered catalog.now loss survivors.now store.walked store.orders) }
    ensures of { IfOk result (IsStoreOf catalog.now loss survivors.now) }
    ensures err { IfErr result (λ fault. MemoryOr fault (IsUnordered catalog.now loss (held_by survivors.now) fault)) }
{
    let _rules = catalog.projection_count();
    let walked = match walk_all(run, catalog, loss, survivors) {
        Ok(walked) => walked,
        Err(fault) => return Err(fault),
    };
    match orders_of(run, catalog, &walked) {
        Ok(orders) => Ok(store_of(catalog, loss, survivors, walked, orders)),
        Err(fault) => Err(fault),
    }
}

/// Compares the surviving files with the rows of the table, images first. Fails at the first file that contradicts
/// them.
pub fn verify_files<R: Threads + Sync, G: Gate + Sync>(
    run: &Run<'_, R, G>,
    store: &OrderedStore<'_>,
) -> Result<(), Fault>
    ensures ok { OnOk result (contradiction_on store.now ≡ None) }
    ensures err { IfErr result (λ fault. MemoryOr fault (contradiction_on store.now ≡ Some fault)) }
{
    let segments = match surviving_segments(run.alloc, store.catalog, store.loss) {
        Ok(segments) => segments,
        Err(_) => return Err(Fault::Memory),
    };
    match verify_images(run, store, segments.as_slice()) {
        Ok(()) => {}
        Err(fault) => return Err(fault),
    }
    let joins = match joins_of(run.alloc, store.catalog, segments.as_slice()) {
        Ok(joins) => joins,
        Err(_) => return Err(Fault::Memory),
    };
    verify_joins(run, store, joins.as_slice())
}

/// The sound store, given what was read of it, or the first fault that applies.
pub fn verify<'a, R: Threads + Sync, G: Gate + Sync>(
    run: &Run<'_, R, G>,
    catalog: &'a Catalog,
    loss: Loss,
    survivors: &'a Survivors<'a>,
) -> Result<SoundStore<'a>, Fault>
    requires safe { IsSafe catalog.now loss }
    requires read { (F : FileContents) × AreRead catalog.now F loss survivors.now }
    ensures ok { IfOk result (λ store. (F : FileContents) → AreRead catalog.now F loss survivors.now
        → AreSound catalog.now F loss survivors.now store.walked store.orders) }
    ensures of { IfOk result (IsStoreOf catalog.now loss survivors.now) }
    ensures err { IfErr result (λ fault. (F : FileContents) → AreRead catalog.now F loss survivors.now
        → MemoryOr fault (IsVerdict catalog.now F loss (Err fault))) }
{
    let _rules = catalog.projection_count();
    let store = match order_store(run, catalog, loss, survivors) {
        Ok(store) => store,
        Err(fault) => return Err(fault),
    };
    match verify_files(run, &store) {
        Ok(()) => Ok(SoundStore::of(store)),
        Err(fault) => Err(fault),
    }
}
