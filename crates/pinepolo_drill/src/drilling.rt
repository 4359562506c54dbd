//! The verb `drill`.
ghost use Rattle.std.specs.Prelude.{◌≤◌, IfOk, IfSome, OnErr};
ghost use Rattle.cs_parallel_io.specs.Standing.{standing};
ghost use Rattle.pinepolo_places.specs.Finding.{LooksUp};
ghost use Rattle.pinepolo_drill.specs.Drills.{DrillsStore, IsReach};

use crate::meter::Stopwatch;
use cs_design::greatest_k;
use cs_drill::drill as drill_files;
use cs_parallel_io::load_side_by_side;
use cs_rebuild::Run;
use cs_schema::{Catalog, Loss};
use pinepolo_answers::Drilled;
use pinepolo_args::DrillArgs;
use pinepolo_places::{Listings, Meter, VerbError, find_store, require_unchanged, watch};
use pinepolo_progress::{Progress, Stage};
use std::marker::Sync;
use std::thread::Threads;

/// The greatest number of sites of a loss to try: the one that is asked for, or else as many as the catalog allows.
fn reach_of(catalog: &Catalog, asked: Option<u8>) -> u8
    requires { IfSome asked (λ n. n ≤ 16) }
    ensures reach { IsReach catalog.now asked result }
    ensures limit { result ≤ 16 }
{
    match asked {
        Some(sites) => sites,
        None => match greatest_k(catalog, Loss::none()) {
            Some(k) => k.min(16),
            None => 0,
        },
    }
}

/// Rebuilds each loss of at most so many sites of a store from its other files, in memory, and compares it with what stands.
/// Nothing is written.
pub fn drill<R: Threads + Sync, G: Progress + Sync, P: Listings + Meter>(
    run: &Run<'_, R, G>,
    places: &mut P,
    request: &DrillArgs<'_>,
) -> Result<Drilled, VerbError>
    ensures ok { IfOk result (λ drilled. DrillsStore P.reads P.opens (standing P.Store.answers)
        places.old request.now.store.now request.now.at_most drilled places.new) }
    ensures err { OnErr result (LooksUp P.reads P.misses places.old request.now.store.now places.new) }
{
    let alloc = run.alloc;
    let (catalog, source) = match find_store(alloc, places, request.store) {
        Ok(found) => found,
        Err(error) => return Err(error),
    };
    run.gate.reached(Stage::Reading);
    let before = watch(alloc, places, request.store)?;
    let none = Loss::none();
    let files = match load_side_by_side(run.rt, alloc, &catalog, none, &source) {
        Ok(files) => files,
        Err(fault) => {
            require_unchanged(alloc, places, request.store, &before)?;
            return Err(VerbError::of_store(alloc, &catalog, request.store, &fault));
        }
    };
    require_unchanged(alloc, places, request.store, &before)?;
    let at_most = reach_of(&catalog, request.at_most);
    let meter: &P = places;
    let mut watch = Stopwatch::new(alloc, meter);
    match drill_files(run, &catalog, &files, at_most, &mut watch) {
        Ok(trials) => Ok(Drilled {
            catalog,
            at_most,
            trials,
            measures: watch.measures,
        }),
        Err(fault) => Err(VerbError::of_store(alloc, &catalog, request.store, &fault)),
    }
}
