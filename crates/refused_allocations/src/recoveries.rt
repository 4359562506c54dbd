//! Rebuilding and checking stores.
ghost use Rattle.std.specs.Prelude.{◌≤◌};

use crate::attempt::{Answer, Report, allocate};
use crate::catalogs::catalog_of;
use anyhow::Result;
use cs_rebuild::{check, rebuild};
use cs_schema::samples::{CITIES, SPLIT_COLUMNS, THREE_PROJECTIONS, TWO_ORDERS};
use cs_schema::{Catalog, Loss};
use cs_store::{Fault, FileSet};
use std::alloc::{AllocError, Global};
use std::thread::Threads;
use test_support::columns::Column;
use test_support::file_sets::{are_among, copy_of};
use test_support::samples::{CITY_PARTS, JOINED_PARTS, ORDER_PARTS};
use test_support::stores::{Parts, loss_of, put_parts};

/// A piece of work has one row.
const CUT: u32 = 1;

/// A whole store that loses some sites, and of how many files the answer consists.
pub struct LosingStore {
    catalog: &'static str,
    parts: &'static Parts<'static>,
    loss: &'static [u8],
    lost: usize,
    rows: u64,
}

/// Four rows in two orders. The first projection is lost.
pub static ONE_LOST: LosingStore = LosingStore {
    catalog: TWO_ORDERS,
    parts: &Parts {
        segments: &[
            (
                0,
                0,
                &[Column::Ints(&[1, 2, 3, 4]), Column::Ints(&[30, 10, 20, 10])],
            ),
            (
                1,
                0,
                &[Column::Ints(&[2, 4, 3, 1]), Column::Ints(&[10, 10, 20, 30])],
            ),
        ],
        deltas: &[],
        joins: &[],
    },
    loss: &[1],
    lost: 2,
    rows: 4,
};

/// Three rows with texts, and joins both ways. One segment is lost, and a surviving join index leads into it.
pub static CITIES_STORE: LosingStore = LosingStore {
    catalog: CITIES,
    parts: &CITY_PARTS,
    loss: &[2],
    lost: 4,
    rows: 3,
};

/// Four rows in three projections of two segments each. Two projections lose a segment.
pub static THREE_STORE: LosingStore = LosingStore {
    catalog: THREE_PROJECTIONS,
    parts: &ORDER_PARTS,
    loss: &[2, 3],
    lost: 4,
    rows: 4,
};

/// Two rows, of which two projections hold a part each, along joins; one has a deleted row. The third is lost.
pub static JOINED_STORE: LosingStore = LosingStore {
    catalog: SPLIT_COLUMNS,
    parts: &JOINED_PARTS,
    loss: &[3],
    lost: 2,
    rows: 2,
};

/// A store, whole, and what is handed in of it, with a copy of that.
#[derive(Drop)]
struct Inputs {
    catalog: Catalog,
    whole: FileSet,
    files: FileSet,
    copy: FileSet,
}

impl Inputs {
    /// The inputs of a call after a loss.
    fn of(alloc: Global, store: &LosingStore, loss: Loss) -> Result<Inputs> {
        let catalog = catalog_of(alloc, store.catalog)?;
        let mut whole = FileSet::new(alloc)?;
        put_parts(alloc, &mut whole, &catalog, store.parts)?;
        let files = surviving(alloc, &catalog, &whole, loss)?;
        let copy = copy_of(alloc, &files)?;
        Ok(Inputs {
            catalog,
            whole,
            files,
            copy,
        })
    }

    /// Whether the files are as they were.
    fn are_unchanged(&self) -> bool {
        self.files.len() == self.copy.len() && are_among(&self.files, &self.copy)
    }
}

/// The files that survive a loss.
fn surviving(
    alloc: Global,
    catalog: &Catalog,
    whole: &FileSet,
    loss: Loss,
) -> Result<FileSet, AllocError> {
    let mut files = FileSet::new(alloc)?;
    for name in &catalog.surviving(alloc, loss)? {
        if let Some(bytes) = whole.get(*name) {
            files.put(*name, Vec::from_slice(alloc, bytes)?)?;
        }
    }
    Ok(files)
}

/// Rebuilds what a store has lost.
pub fn rebuild_store(
    rt: &(impl AllocGlobal + Threads + Sync),
    store: &LosingStore,
    workers: u32,
    before: u64,
) -> Result<Report>
    requires { (1 ≤ workers) × (workers ≤ 64) }
{
    let inputs = Inputs::of(rt.alloc(), store, loss_of(store.loss))?;
    Ok(rebuilt(rt, store, &inputs, workers, before))
}

fn rebuilt(
    rt: &(impl AllocGlobal + Threads + Sync),
    store: &LosingStore,
    inputs: &Inputs,
    workers: u32,
    before: u64,
) -> Report
    requires { (1 ≤ workers) × (workers ≤ 64) }
{
    let alloc = rt.alloc();
    let loss = loss_of(store.loss);
    let granted = allocate(alloc, before);
    if granted < before {
        return Report::Before(granted);
    }
    let answer = match rebuild(
        rt,
        alloc,
        &inputs.catalog,
        &inputs.files,
        loss,
        workers,
        CUT,
    ) {
        Ok(found) => Answer::of(found.len() == store.lost && are_among(&found, &inputs.whole)),
        Err(Fault::Memory) => Answer::Memory,
        Err(_) => Answer::Wrong,
    };
    Report::made(alloc, answer).unless_changed(inputs.are_unchanged())
}

/// Checks the whole store.
pub fn check_store(
    rt: &(impl AllocGlobal + Threads + Sync),
    store: &LosingStore,
    workers: u32,
    before: u64,
) -> Result<Report>
    requires { (1 ≤ workers) × (workers ≤ 64) }
{
    let inputs = Inputs::of(rt.alloc(), store, Loss::none())?;
    Ok(checked(rt, store.rows, &inputs, workers, before))
}

fn checked(
    rt: &(impl AllocGlobal + Threads + Sync),
    rows: u64,
    inputs: &Inputs,
    workers: u32,
    before: u64,
) -> Report
    requires { (1 ≤ workers) × (workers ≤ 64) }
{
    let alloc = rt.alloc();
    let granted = allocate(alloc, before);
    if granted < before {
        return Report::Before(granted);
    }
    let answer = match check(rt, alloc, &inputs.catalog, &inputs.files, 0, workers, CUT) {
        Ok(found) => Answer::of(found == rows),
        Err(Fault::Memory) => Answer::Memory,
        Err(_) => Answer::Wrong,
    };
    Report::made(alloc, answer).unless_changed(inputs.are_unchanged())
}
