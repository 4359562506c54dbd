//! Gates that hold workers until enough are at work at once, also while rows are walked along joins and joins are
//! verified, and count the pieces. The columns of a lost segment are encoded one after the other, so if a column has
//! fewer pieces than there are workers, only the rounds before are held.
ghost use Rattle.std.specs.Prelude.{◌≤◌};

use crate::answers::{Written, expect_written};
use crate::stores::Store;
use crate::{joined, three_orders};
use cs_board::Gate;
use cs_rebuild::{check_gated, rebuild_gated};
use cs_schema::samples::{SPLIT_COLUMNS, THREE_PROJECTIONS};
use std::marker::Sync;
use std::process::Abort;
use std::sync::atomic::{AtomicU64, Ordering};
use std::test::Fail;
use std::thread::Threads;
use test_support::catalogs::{AS_IT_IS, BY_ROWS, Edit};
use test_support::samples::{JOINED_PARTS, ORDER_PARTS};
use test_support::stores::{Parts, loss_of};

/// How long a piece is held at most, in turns of a loop.
const TURNS: u64 = 1_000_000_000;

/// Holds the first pieces of a round until one more has begun, so that as many workers are at work at once.
#[derive(Drop)]
struct Crowd {
    /// The number of rounds that are held.
    held: u64,
    /// The last piece to wait for.
    last: u32,
    /// How often each of the first pieces has begun, by its number.
    begun: [AtomicU64; 4],
    entered: AtomicU64,
    gave_up: AtomicU64,
}

impl Crowd {
    fn of(held: u64, last: u32) -> Crowd {
        Crowd {
            held,
            last,
            begun: [
                AtomicU64::new(0),
                AtomicU64::new(0),
                AtomicU64::new(0),
                AtomicU64::new(0),
            ],
            entered: AtomicU64::new(0),
            gave_up: AtomicU64::new(0),
        }
    }

    /// Waits until the last piece has begun more often than this.
    fn wait(&self, before: u64) {
        let Some(last) = self.begun.get(self.last as usize) else {
            return;
        };
        for _ in 0..TURNS {
            if last.load(Ordering::SeqCst) > before {
                return;
            }
        }
        self.gave_up.fetch_add(1, Ordering::SeqCst);
    }
}

impl Gate for Crowd {
    fn entered(&self, piece: u32) {
        self.entered.fetch_add(1, Ordering::SeqCst);
        let Some(begun) = self.begun.get(piece as usize) else {
            return;
        };
        let before = begun.fetch_add(1, Ordering::SeqCst);
        if before < self.held && piece < self.last {
            self.wait(before);
        }
    }
}

/// A store, the sites that it loses, what that costs, and its rows.
#[derive(Drop)]
struct Lost<'a> {
    catalog: &'a str,
    parts: &'a Parts<'a>,
    sites: &'a [u8],
    files: &'a [Written],
    rows: u64,
}

const JOINED: Lost = Lost {
    catalog: SPLIT_COLUMNS,
    parts: &JOINED_PARTS,
    sites: &[3],
    files: &joined::LOST,
    rows: 2,
};

const THREE_ORDERS: Lost = Lost {
    catalog: THREE_PROJECTIONS,
    parts: &ORDER_PARTS,
    sites: &[2, 3],
    files: &three_orders::LOST,
    rows: 4,
};

/// More rounds than there are.
const ALL: u64 = 100;

/// The rounds Files and Walk.
const FIRST: u64 = 2;

const NONE: u64 = 0;

/// Edits of the catalog, the numbers of workers, of rows of a piece, of rounds that are held, and of pieces of the
/// rebuild.
type Rebuild<'a> = (&'a [Edit<'a>], u32, u32, u64, u64);

/// Edits of the catalog, the numbers of lost sites, of workers, of rows of a piece, and of pieces of the check.
type Check<'a> = (&'a [Edit<'a>], u8, u32, u32, u64);

// The pieces are those of the files, the walk, the images, the joins, and the written columns.
const TWO_REBUILD_JOINED: [Rebuild; 2] = [
    (AS_IT_IS, 2, 1, ALL, 2 + 2 + 2 + 2 + 6),
    (BY_ROWS, 2, 1, ALL, 2 + 4 + 2 + 2 + 6),
];

const TWO_CHECK_JOINED: [Check; 2] = [
    (AS_IT_IS, 1, 2, 1, 3 + 2 + 3 + 2),
    (BY_ROWS, 1, 2, 1, 3 + 6 + 3 + 2),
];

const TWO_REBUILD_THREE_ORDERS: [Rebuild; 3] = [
    (AS_IT_IS, 2, 1, ALL, 20),
    (BY_ROWS, 2, 1, ALL, 24),
    (AS_IT_IS, 2, 2, FIRST, 14),
];

const TWO_CHECK_THREE_ORDERS: [Check; 3] = [
    (AS_IT_IS, 2, 2, 1, 16),
    (BY_ROWS, 2, 2, 1, 24),
    (AS_IT_IS, 2, 2, 2, 14),
];

const FOUR_REBUILD_THREE_ORDERS: [Rebuild; 2] = [
    (AS_IT_IS, 4, 1, FIRST, 4 + 4 + 4 + 8),
    (BY_ROWS, 4, 1, FIRST, 4 + 8 + 4 + 8),
];

const FOUR_CHECK_THREE_ORDERS: [Check; 2] = [
    (AS_IT_IS, 1, 4, 1, 6 + 4 + 6),
    (BY_ROWS, 1, 4, 1, 6 + 12 + 6),
];

// The walk has four rows, and each written column two.
const CUT_REBUILDS: [Rebuild; 4] = [
    (AS_IT_IS, 1, 1, NONE, 4 + 4 + 4 + 8),
    (AS_IT_IS, 1, 2, NONE, 4 + 2 + 4 + 4),
    (AS_IT_IS, 1, 3, NONE, 4 + 2 + 4 + 4),
    (AS_IT_IS, 1, 4, NONE, 4 + 1 + 4 + 4),
];

const CUT_CHECKS: [Check; 4] = [
    (AS_IT_IS, 2, 1, 1, 6 + 4 + 6),
    (AS_IT_IS, 2, 1, 2, 6 + 2 + 6),
    (AS_IT_IS, 2, 1, 3, 6 + 2 + 6),
    (AS_IT_IS, 2, 1, 4, 6 + 1 + 6),
];

/// The numbers of workers and of rows of a piece.
#[derive(Drop)]
struct Work {
    workers: u32,
    cut: u32,
    ghost workers_range: { (1 ≤ workers) × (workers ≤ 64) },
    ghost cut_range: { (1 ≤ cut) × (cut ≤ 1048576) },
}

fn work_of(rt: &impl Abort, workers: u32, cut: u32) -> Work {
    assert!(rt; workers >= 1 && workers <= 64 && cut >= 1 && cut <= 1_048_576);
    Work { workers, cut }
}

/// Expects that this many workers rebuild the store at once in each round that is held, in this many pieces.
fn expect_rebuilds(
    rt: &(impl Threads + Sync + AllocGlobal + Abort),
    lost: &Lost,
    trials: &[Rebuild],
) -> Result<(), Fail> {
    for trial in trials {
        expect_rebuild(rt, lost, trial)?;
    }
    Ok(())
}

fn expect_rebuild(
    rt: &(impl Threads + Sync + AllocGlobal + Abort),
    lost: &Lost,
    (edits, workers, cut, held, pieces): &Rebuild,
) -> Result<(), Fail> {
    let store = Store::edited(rt.alloc(), lost.catalog, edits, lost.parts)?;
    let work = work_of(rt, *workers, *cut);
    expect_rebuilt(rt, &store, lost, &work, *held, *pieces)
}

/// Expects that this many workers check the store at once in each round, in this many pieces.
fn expect_checks(
    rt: &(impl Threads + Sync + AllocGlobal + Abort),
    lost: &Lost,
    trials: &[Check],
) -> Result<(), Fail> {
    for (edits, k, workers, cut, pieces) in trials {
        let store = Store::edited(rt.alloc(), lost.catalog, edits, lost.parts)?;
        let work = work_of(rt, *workers, *cut);
        expect_checked(rt, &store, *k, lost.rows, &work, *pieces);
    }
    Ok(())
}

fn expect_rebuilt(
    rt: &(impl Threads + Sync + Abort),
    store: &Store,
    lost: &Lost,
    work: &Work,
    held: u64,
    pieces: u64,
) -> Result<(), Fail> {
    let gate = Crowd::of(held, work.workers - 1);
    let out = rebuild_gated(
        rt,
        store.alloc,
        &store.catalog,
        &store.files,
        loss_of(lost.sites),
        work.workers,
        work.cut,
        &gate,
    );
    expect_entered(rt, &gate, pieces);
    match out {
        Ok(files) => expect_written(rt, store.alloc, &files, lost.files),
        Err(_) => Err(Fail::from("refused")),
    }
}

fn expect_checked(
    rt: &(impl Threads + Sync + Abort),
    store: &Store,
    k: u8,
    rows: u64,
    work: &Work,
    pieces: u64,
) {
    let gate = Crowd::of(ALL, work.workers - 1);
    let answer = check_gated(
        rt,
        store.alloc,
        &store.catalog,
        &store.files,
        k,
        work.workers,
        work.cut,
        &gate,
    );
    expect_entered(rt, &gate, pieces);
    assert_eq!(rt; answer, Ok(rows));
}

/// Expects that this many pieces began, and none was held in vain.
fn expect_entered(rt: &impl Abort, gate: &Crowd, pieces: u64) {
    let entered = gate.entered.load(Ordering::SeqCst);
    let gave_up = gate.gave_up.load(Ordering::SeqCst);
    assert_eq!(rt; (entered, gave_up), (pieces, 0));
}

#[test]
fn two_workers_at_once_in_rebuild(rt: HostRuntime) -> Result<(), Fail> {
    expect_rebuilds(&rt, &JOINED, &TWO_REBUILD_JOINED)?;
    expect_rebuilds(&rt, &THREE_ORDERS, &TWO_REBUILD_THREE_ORDERS)
}

#[test]
fn two_workers_at_once_in_check(rt: HostRuntime) -> Result<(), Fail> {
    expect_checks(&rt, &JOINED, &TWO_CHECK_JOINED)?;
    expect_checks(&rt, &THREE_ORDERS, &TWO_CHECK_THREE_ORDERS)
}

#[test]
fn four_workers_at_once(rt: HostRuntime) -> Result<(), Fail> {
    expect_rebuilds(&rt, &THREE_ORDERS, &FOUR_REBUILD_THREE_ORDERS)?;
    expect_checks(&rt, &THREE_ORDERS, &FOUR_CHECK_THREE_ORDERS)
}

#[test]
fn cut_decides_the_pieces(rt: HostRuntime) -> Result<(), Fail> {
    expect_rebuilds(&rt, &THREE_ORDERS, &CUT_REBUILDS)?;
    expect_checks(&rt, &THREE_ORDERS, &CUT_CHECKS)
}
