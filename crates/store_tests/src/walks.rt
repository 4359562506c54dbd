//! Walks of small stores.
ghost use Rattle.std.specs.Prelude.{◌≡◌, map, IfOk};

use crate::surviving::catalogs::{NUMBERED_CITIES, THREE_ORDERS, TWO_ORDERS};
use crate::surviving::{Store, catalog};
use cs_rows::range::{WalkFault, walk_range};
use cs_rows::{BorrowedColumns, PlanWalk, Table, Walked, join_once};
use cs_safety::plan;
use cs_schema::samples::SPLIT_COLUMNS;
use cs_schema::{Catalog, Cells, Kind, Loss, Value};
use std::alloc::{AllocGlobal, Global};
use std::process::Abort;
use std::thread::Threads;

/// More rows than a small store has.
const ALL: usize = 8;

/// Whether a walk has these rows of ints.
fn shows(walked: &Walked, catalog: &Catalog, rows: &[&[i64]]) -> bool
    requires { walked.now.kinds ≡ map (λ c. c.kind) catalog.now.columns }
{
    let columns = catalog.columns.len();
    if walked.rows() != rows.len() {
        return false;
    }
    for (row, wanted) in rows.iter().enumerate() {
        if wanted.len() != columns {
            return false;
        }
        for (c, int) in wanted.iter().enumerate() {
            match walked.cell(row, c) {
                Value::Int(cell) => {
                    if cell != *int {
                        return false;
                    }
                }
                Value::Text(_) => return false,
            }
        }
    }
    true
}

/// Whether a walk gives these rows.
fn gives(
    store: &Store<'_>,
    alloc: Global,
    loss: Loss,
    from: usize,
    to: usize,
    rows: &[&[i64]],
) -> bool {
    match store.walk(alloc, loss, from, to) {
        Ok(walked) => shows(&walked, store.survivors.catalog(), rows),
        Err(_) => false,
    }
}

/// Whether two walks of one row each give these rows.
fn gives_in_parts(store: &Store<'_>, alloc: Global, loss: Loss, rows: &[&[i64]]) -> bool {
    let Ok(mut first) = store.walk(alloc, loss, 0, 1) else {
        return false;
    };
    let Ok(second) = store.walk(alloc, loss, 1, 2) else {
        return false;
    };
    first.append(second).is_ok() && shows(&first, store.survivors.catalog(), rows)
}

/// Whether a walk stops at the second row of the first segment.
fn is_astray<T: Drop>(walked: Result<T, WalkFault>) -> bool {
    matches!(walked, Err(WalkFault::Astray { p: 0, s: 0, row: 1 }))
}

#[test]
fn ranges_of_a_plan_with_ample_memory(rt: HostRuntime) {
    let alloc = rt.alloc();
    let loss = Loss::none().with(3);
    let catalog = catalog(&rt, SPLIT_COLUMNS);
    let mut store = Store::of(&rt, &catalog);
    store.put_segment(&rt, 0, 0, &[&[1, 2], &[5, 6]], &[]);
    store.put_segment(&rt, 1, 0, &[&[7, 8, 9]], &[0]);
    store.put_join(&rt, 0, 0, 1, &[(0, 3), (0, 2)]);
    let rows: [&[i64]; 2] = [&[1, 5, 9], &[2, 6, 8]];
    assert!(rt; gives(&store, alloc, loss, 0, 2, &rows));
    assert!(rt; gives_in_parts(&store, alloc, loss, &rows));
    store.put_join(&rt, 0, 0, 1, &[(0, 3), (0, 1)]);
    assert!(rt; is_astray(store.walk(alloc, loss, 0, 2)));
    assert!(rt; gives(&store, alloc, loss, 0, 1, &[&[1, 5, 9]]));
}

/// Two rows that lead to the second projection; the second one is astray.
fn numbered_cities<'a>(rt: &(impl Abort + AllocGlobal), catalog: &'a Catalog) -> Store<'a> {
    let mut store = Store::of(rt, catalog);
    store.put_segment(rt, 0, 0, &[&[1, 2], &[2, 2], &[7, 5]], &[]);
    store.put_segment(rt, 1, 1, &[&[2], &[7]], &[]);
    store.put_join(rt, 0, 0, 1, &[(1, 1), (1, 9)]);
    store
}

/// Expects the keys of the plan without a loss, gathered of the first row and borrowed, and that the second row is astray.
fn expect_keys(rt: &(impl Abort + AllocGlobal), store: &Store<'_>) {
    let alloc = rt.alloc();
    let catalog = store.survivors.catalog();
    let _projections = catalog.projection_count();
    let plan = plan(catalog, Loss::none()).expect(rt, "a plan");
    let walk = PlanWalk::new(alloc, catalog, &plan, &store.survivors).expect(rt, "a walk");
    assert!(rt; walk.column_count() == 3 && walk.kind(0) == Kind::Int);
    let Ok(followed) = walk.follow(alloc, 0, 1) else {
        panic!(rt; "no row");
    };
    assert!(rt; followed.from == 0 && followed.to == 1);
    let keys = walk.gather(alloc, &[followed], 0);
    let keys = keys.expect(rt, "the keys");
    assert!(rt; keys.len() == 1 && keys.cell(0) == Value::Int(1));
    let mut owned = Vec::new(alloc);
    let Ok(()) = owned.push(Cells::new(alloc, Kind::Int)) else {
        panic!(rt; "no memory");
    };
    let mut borrowed = BorrowedColumns::none(alloc);
    borrowed.push(walk.lone_column(0)).expect(rt, "memory");
    let table = Table::of_columns(owned, borrowed);
    assert!(rt; table.rows() == 2 && table.column(0).same(0, &keys, 0));
    assert!(rt; is_astray(walk.follow(alloc, 0, 2)));
}

// The first projection has every column, and its rows still lead to the second.
#[test]
fn keys_of_an_anchor(rt: HostRuntime) {
    let catalog = catalog(&rt, NUMBERED_CITIES);
    let store = numbered_cities(&rt, &catalog);
    expect_keys(&rt, &store);
}

/// The rows of the plan without a loss, in one walk. Out of memory if there is no plan, or the range ends before it
/// begins.
fn walk_once(store: &Store<'_>, alloc: Global, from: usize, to: usize) -> Result<Walked, WalkFault>
    ensures { IfOk result (λ walked. walked.kinds ≡ map (λ c. c.kind) store.now.survivors.catalog.columns) }
{
    let catalog = store.survivors.catalog();
    let _projections = catalog.projection_count();
    match plan(catalog, Loss::none()) {
        Some(plan) => {
            if from > to {
                return Err(WalkFault::Memory);
            }
            walk_range(alloc, catalog, &plan, &store.survivors, from, to)
        }
        None => Err(WalkFault::Memory),
    }
}

#[test]
fn rows_of_a_plan_in_one_walk(rt: HostRuntime) {
    let alloc = rt.alloc();
    let catalog = catalog(&rt, NUMBERED_CITIES);
    let store = numbered_cities(&rt, &catalog);
    let Ok(walked) = walk_once(&store, alloc, 0, 1) else {
        panic!(rt; "no rows");
    };
    assert!(rt; shows(&walked, store.survivors.catalog(), &[&[1, 2, 7]]));
    assert!(rt; is_astray(walk_once(&store, alloc, 0, 2)));
}

// What was put is there, and nothing else.
#[test]
fn images_and_joins_that_were_put(rt: HostRuntime) {
    let catalog = catalog(&rt, NUMBERED_CITIES);
    let store = numbered_cities(&rt, &catalog);
    let survivors = &store.survivors;
    let catalog = survivors.catalog();
    assert!(rt; catalog.projection_count() == 2);
    assert!(rt; catalog.segments(0) == 1 && catalog.segments(1) == 2);
    assert!(rt; survivors.images(1).len() == 2 && survivors.image(1, 0).is_none());
    let image = survivors.image(1, 1).expect(&rt, "an image");
    assert_eq!(rt; image.rows(), 1);
    let join = survivors.join(0, 0, 1).expect(&rt, "a join index");
    assert!(rt; join.top() == 2 && join.entry(2) == Some((1, 9)));
    assert!(rt; survivors.join(1, 1, 0).is_none());
}

/// Whether the walk by rows gives these rows, at once and in two parts, and `once` and `join_once` keep those of them
/// with each key once.
fn gives_once(
    rt: &(impl AllocGlobal + Threads + Sync),
    store: &Store<'_>,
    loss: Loss,
    all: &[&[i64]],
    once: &[&[i64]],
) -> bool {
    let alloc = rt.alloc();
    let catalog = store.survivors.catalog();
    let (Ok(mut walked), Ok(first), Ok(second)) = (
        store.walk_by_rows(alloc, loss, 0, ALL),
        store.walk_by_rows(alloc, loss, 0, 3),
        store.walk_by_rows(alloc, loss, 3, ALL),
    ) else {
        return false;
    };
    let pieces = [first, second];
    let Ok(joined) = join_once(rt, alloc, catalog, &pieces) else {
        return false;
    };
    shows(&walked, catalog, all)
        && pieces[0].rows() == 3
        && pieces[1].rows().saturating_add(3) == all.len()
        && shows(&joined, catalog, once)
        && walked.once(catalog).is_ok()
        && shows(&walked, catalog, once)
}

/// Whether no rows stay no rows when repeats are removed, in one part and in none.
fn keeps_no_rows(rt: &(impl AllocGlobal + Threads + Sync), catalog: &Catalog) -> bool {
    let alloc = rt.alloc();
    let Ok(mut none) = Walked::none(alloc, catalog) else {
        return false;
    };
    if none.once(catalog).is_err() || none.rows() != 0 {
        return false;
    }
    let (Ok(one), Ok(no_piece)) = (
        join_once(rt, alloc, catalog, &[none]),
        join_once(rt, alloc, catalog, &[]),
    ) else {
        return false;
    };
    one.rows() == 0 && no_piece.rows() == 0
}

// No projection is alive, and each row is in a surviving segment.
#[test]
fn rows_of_surviving_segments_with_ample_memory(rt: HostRuntime) {
    let catalog = catalog(&rt, THREE_ORDERS);
    let mut store = Store::of(&rt, &catalog);
    store.put_segment(&rt, 0, 1, &[&[3, 4], &[20, 10]], &[]);
    store.put_segment(&rt, 1, 1, &[&[3, 1], &[20, 30]], &[]);
    store.put_segment(&rt, 2, 0, &[&[2, 4, 3], &[10, 10, 20]], &[]);
    let loss = Loss::none().with(1).with(3).with(6);
    let all: [&[i64]; 7] = [
        &[3, 20],
        &[4, 10],
        &[3, 20],
        &[1, 30],
        &[2, 10],
        &[4, 10],
        &[3, 20],
    ];
    let once: [&[i64]; 4] = [&[3, 20], &[4, 10], &[1, 30], &[2, 10]];
    assert!(rt; gives_once(&rt, &store, loss, &all, &once));
    assert!(rt; keeps_no_rows(&rt, store.survivors.catalog()));
}

// One segment is left, in which a key occurs twice.
#[test]
fn rows_with_a_key_twice(rt: HostRuntime) {
    let catalog = catalog(&rt, TWO_ORDERS);
    let mut store = Store::of(&rt, &catalog);
    store.put_segment(&rt, 1, 0, &[&[2, 4, 3, 2], &[10, 10, 20, 30]], &[]);
    let loss = Loss::none().with(1);
    let all: [&[i64]; 4] = [&[2, 10], &[4, 10], &[3, 20], &[2, 30]];
    assert!(rt; gives_once(&rt, &store, loss, &all, &all[..3]));
}

// One segment of the second projection is lost: the projection is marked for two rows, which are full without it. The
// row that survives there leads back to the first of all, whose walk finds the same row.
#[test]
fn rows_with_a_marked_projection(rt: HostRuntime) {
    let loss = Loss::none().with(2);
    let catalog = catalog(&rt, NUMBERED_CITIES);
    let mut store = Store::of(&rt, &catalog);
    store.put_segment(&rt, 0, 0, &[&[1, 2, 3], &[2, 1, 1], &[7, 5, 3]], &[]);
    store.put_segment(&rt, 1, 1, &[&[2], &[7]], &[]);
    store.put_join(&rt, 0, 0, 1, &[(1, 1), (0, 1), (0, 2)]);
    store.put_join(&rt, 1, 1, 0, &[(0, 1)]);
    let all: [&[i64]; 4] = [&[1, 2, 7], &[2, 1, 5], &[3, 1, 3], &[1, 2, 7]];
    assert!(rt; gives_once(&rt, &store, loss, &all, &all[..3]));
    store.put_join(&rt, 0, 0, 1, &[(1, 1), (0, 0), (0, 2)]);
    assert!(rt; is_astray(store.walk_by_rows(rt.alloc(), loss, 0, ALL)));
}

#[test]
fn rows_of_given_columns(rt: HostRuntime) {
    let columns = vec![in rt.alloc(); Cells::new(rt.alloc(), Kind::Int)].expect(&rt, "a column");
    let walked = Walked::from_columns(columns);
    assert!(rt; walked.rows() == 0 && walked.column(0).is_empty());
}
