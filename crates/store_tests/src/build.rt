//! New stores from rows, and tables that are handed out.
ghost use Rattle.std.specs.Prelude.{◌≤◌};

use crate::stores::Store;
use cs_rebuild::{OpenGate, Run, are_columns, build, rebuild, table};
use cs_schema::samples::{CITIES, THREE_PROJECTIONS};
use cs_schema::{Cells, Loss, Texts};
use cs_store::{Fault, FileSet};
use std::alloc::Global;
use std::marker::Sync;
use std::process::Abort;
use std::test::Fail;
use std::thread::Threads;
use test_support::catalogs::{AS_IT_IS, BY_ROWS, Edit};
use test_support::columns::{Column, cells_of};
use test_support::samples::{CITY_PARTS, ORDER_PARTS};
use test_support::stores::{Parts, loss_of};

/// A store without changes, its rows in some order and by primary key, and losses with the number of files that they
/// cost.
#[derive(Drop)]
struct Case<'a> {
    text: &'a str,
    parts: &'a Parts<'a>,
    rows: &'a [Column<'a>],
    by_key: &'a [Column<'a>],
    losses: &'a [(&'a [u8], usize)],
}

const IN_CITIES: Case = Case {
    text: CITIES,
    parts: &CITY_PARTS,
    rows: &[
        Column::Ints(&[3, 1, 2]),
        Column::Texts(&["la", "ny", "la"]),
        Column::Ints(&[3, 7, 5]),
    ],
    by_key: &[
        Column::Ints(&[1, 2, 3]),
        Column::Texts(&["ny", "la", "la"]),
        Column::Ints(&[7, 5, 3]),
    ],
    losses: &[(&[], 0), (&[2], 4), (&[3], 4), (&[2, 3], 7)],
};

const IN_THREE_ORDERS: Case = Case {
    text: THREE_PROJECTIONS,
    parts: &ORDER_PARTS,
    rows: &[Column::Ints(&[4, 2, 1, 3]), Column::Ints(&[10, 10, 30, 20])],
    by_key: &[Column::Ints(&[1, 2, 3, 4]), Column::Ints(&[30, 10, 20, 10])],
    losses: &[(&[], 0), (&[1], 2), (&[2, 3], 4), (&[4, 6], 4)],
};

/// Whether the cells are those of a column.
fn are_cells_of(cells: &Cells, column: Column) -> bool {
    match (cells, column) {
        (Cells::Ints(found), Column::Ints(ints)) => found.as_slice() == ints,
        (Cells::Texts(found), Column::Texts(texts)) => are_texts(found, texts),
        _ => false,
    }
}

fn are_texts(found: &Texts, texts: &[&str]) -> bool {
    if found.len() != texts.len() {
        return false;
    }
    for row in 0..texts.len() {
        if found.get(row) != texts[row] {
            return false;
        }
    }
    true
}

/// How a store is built and its table handed out.
fn run_of<R: Threads + Sync>(rt: &R, alloc: Global, cut: u32) -> Run<'_, R, OpenGate>
    requires { (1 ≤ cut) × (cut ≤ 1048576) }
{
    Run {
        rt,
        alloc,
        workers: 2,
        cut,
        gate: &OpenGate,
    }
}

fn built<R: Threads + Sync>(
    rt: &R,
    store: &Store,
    cut: u32,
    columns: &[Column],
) -> Result<Result<FileSet, Fault>, Fail>
    requires { (1 ≤ cut) × (cut ≤ 1048576) }
{
    let rows = cells_of(store.alloc, columns)?;
    if !are_columns(&store.catalog, rows.as_slice()) {
        return Err(Fail::from("no columns of the catalog"));
    }
    let run = run_of(rt, store.alloc, cut);
    Ok(build(&run, &store.catalog, rows.as_slice()))
}

/// Expects that each file is among others with the same bytes.
fn expect_among(rt: &impl Abort, files: &FileSet, others: &FileSet) {
    for i in 0..files.len() {
        let (name, bytes) = files.at(i);
        assert_eq!(rt; Some(bytes), others.get(name), "{name}");
    }
}

/// Expects that the table of these files is handed out after a loss, by primary key.
fn expect_table<R: Threads + Sync + Abort>(
    rt: &R,
    store: &Store,
    files: &FileSet,
    loss: Loss,
    by_key: &[Column],
) -> Result<(), Fail> {
    let run = run_of(rt, store.alloc, 2);
    let Ok(rows) = table(&run, &store.catalog, files, loss) else {
        return Err(Fail::from("no table"));
    };
    assert_eq!(rt; rows.len(), by_key.len());
    for (cells, column) in rows.iter().zip(by_key.iter()) {
        assert!(rt; are_cells_of(cells, *column));
    }
    Ok(())
}

/// Expects that a loss costs this many of these files, which are rebuilt.
fn expect_rebuilt(
    rt: &(impl Threads + Sync + Abort),
    store: &Store,
    files: &FileSet,
    loss: Loss,
    count: usize,
) -> Result<(), Fail> {
    let Ok(out) = rebuild(rt, store.alloc, &store.catalog, files, loss, 2, 2) else {
        return Err(Fail::from("refused"));
    };
    assert_eq!(rt; out.len(), count);
    expect_among(rt, &out, files);
    Ok(())
}

/// Expects that a store is built of rows, and that after each loss its files are rebuilt and its table is handed out.
fn expect_built(
    rt: &(impl Threads + Sync + Abort),
    store: &Store,
    cut: u32,
    case: &Case,
) -> Result<(), Fail>
    requires { (1 ≤ cut) × (cut ≤ 1048576) }
{
    let Ok(files) = built(rt, store, cut, case.rows)? else {
        return Err(Fail::from("not built"));
    };
    assert_eq!(rt; files.len(), store.files.len());
    expect_among(rt, &files, &store.files);
    expect_losses(rt, store, &files, case)
}

fn expect_losses(
    rt: &(impl Threads + Sync + Abort),
    store: &Store,
    files: &FileSet,
    case: &Case,
) -> Result<(), Fail> {
    for (sites, count) in case.losses {
        let loss = loss_of(sites);
        expect_table(rt, store, files, loss, case.by_key)?;
        expect_rebuilt(rt, store, files, loss, *count)?;
    }
    Ok(())
}

/// Expects it under a rule of safety, with small and large cuts.
fn expect_case(
    rt: &(impl Threads + Sync + AllocGlobal + Abort),
    case: &Case,
    rule: &[Edit],
) -> Result<(), Fail> {
    let store = Store::edited(rt.alloc(), case.text, rule, case.parts)?;
    expect_cuts(rt, &store, case)
}

fn expect_cuts(rt: &(impl Threads + Sync + Abort), store: &Store, case: &Case) -> Result<(), Fail> {
    expect_built(rt, store, 1, case)?;
    expect_built(rt, store, 4, case)
}

const CASES: [(&Case, &[Edit]); 4] = [
    (&IN_CITIES, AS_IT_IS),
    (&IN_CITIES, BY_ROWS),
    (&IN_THREE_ORDERS, AS_IT_IS),
    (&IN_THREE_ORDERS, BY_ROWS),
];

fn expect_cases(
    rt: &(impl Threads + Sync + AllocGlobal + Abort),
    cases: &[(&Case, &[Edit])],
) -> Result<(), Fail> {
    for (case, rule) in cases {
        expect_case(rt, case, rule)?;
    }
    Ok(())
}

#[test]
fn built_as_made_by_hand(rt: HostRuntime) -> Result<(), Fail> {
    expect_cases(&rt, &CASES)
}

#[test]
fn key_twice(rt: HostRuntime) -> Result<(), Fail> {
    let store = Store::of(rt.alloc(), THREE_PROJECTIONS)?;
    let rows = [Column::Ints(&[4, 2, 4]), Column::Ints(&[10, 20, 30])];
    let answer = built(&rt, &store, 4, &rows)?;
    assert_eq!(rt; answer.err(), Some(Fault::Twice));
    Ok(())
}
