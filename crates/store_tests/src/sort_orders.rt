//! The orders of rows in segments, and rows without orders.
ghost use Rattle.std.specs.Prelude.{◌≡◌, ◌<◌, ◌^◌, length, map};

use cs_catalog::read_catalog;
use cs_order::samples::walked_rows;
use cs_order::{OrderFault, orders};
use cs_rows::Walked;
use cs_schema::samples::{CITIES, THREE_PROJECTIONS, TWO_ORDERS};
use cs_schema::{Catalog, Cells, Texts, Value, Word};
use std::alloc::AllocGlobal;
use std::process::Abort;
use std::thread::Threads;

/// Rows of these columns, few enough to be numbered.
fn walked(rt: &(impl Abort + AllocGlobal), catalog: &Catalog, columns: Vec<Cells>) -> Walked
    ensures kinds { result.kinds ≡ map (λ c. c.kind) catalog.now.columns }
    ensures few { length result.rows < 2 ^ 32 }
{
    let Some(walked) = walked_rows(catalog, columns) else {
        panic!(rt; "these are no columns of the catalog");
    };
    assert!(rt; walked.rows() <= u32::MAX as usize);
    walked
}

/// The catalog of a text.
fn catalog(rt: &(impl Abort + AllocGlobal), text: &str) -> Catalog {
    read_catalog(rt.alloc(), text.as_bytes()).expect(rt, "a catalog")
}

/// The int key of a row.
fn int_key(rt: &impl Abort, catalog: &Catalog, walked: &Walked, row: u32) -> i64
    requires { walked.now.kinds ≡ map (λ c. c.kind) catalog.now.columns }
    ensures { row < length walked.now.rows }
{
    let _rules = catalog.projection_count();
    assert!(rt; (row as usize) < walked.rows());
    match walked.column(catalog.key as usize).cell(row as usize) {
        Value::Int(key) => key,
        Value::Text(_) => panic!(rt; "no int"),
    }
}

/// The int keys of a segment's rows, in order. Each row must be at its place.
fn keys_in(
    rt: &(impl Threads + Sync + Abort + AllocGlobal),
    catalog: &Catalog,
    columns: Vec<Cells>,
    p: u16,
    s: u16,
) -> Vec<i64> {
    let walked = walked(rt, catalog, columns);
    assert!(rt; p < catalog.projection_count() && s < catalog.segments(p));
    let Ok(orders) = orders(rt, rt.alloc(), &walked, catalog) else {
        panic!(rt; "no orders");
    };
    let mut keys = Vec::new(rt.alloc());
    for (index, row) in orders.segment(p, s).iter().enumerate() {
        keys.push(int_key(rt, catalog, &walked, *row))
            .expect(rt, "memory");
        let (segment, at) = orders.place(p, *row);
        assert!(rt; segment == s && at as usize == index);
    }
    keys
}

/// Why rows of these columns have no orders.
fn fault_of(
    rt: &(impl Threads + Sync + Abort + AllocGlobal),
    catalog: &Catalog,
    columns: Vec<Cells>,
) -> Option<OrderFault> {
    let walked = walked(rt, catalog, columns);
    orders(rt, rt.alloc(), &walked, catalog).err()
}

/// Two columns of ints.
fn two_columns(rt: &(impl Abort + AllocGlobal), ids: Vec<i64>, values: Vec<i64>) -> Vec<Cells> {
    vec![in rt.alloc(); Cells::Ints(ids), Cells::Ints(values)].expect(rt, "two columns")
}

/// 5,000 ids out of order, and their remainders by 7.
fn ids_and_remainders(rt: &(impl Abort + AllocGlobal)) -> Vec<Cells> {
    let mut ids = Vec::new(rt.alloc());
    let mut remainders = Vec::new(rt.alloc());
    for row in 0..5000u32 {
        let id = row * 1237 % 5000;
        ids.push(i64::from(id)).expect(rt, "memory");
        remainders.push(i64::from(id % 7)).expect(rt, "memory");
    }
    two_columns(rt, ids, remainders)
}

#[test]
fn ids_by_their_remainder_with_ample_memory(rt: HostRuntime) {
    let keys = keys_in(
        &rt,
        &catalog(&rt, TWO_ORDERS),
        ids_and_remainders(&rt),
        1,
        0,
    );
    assert_eq!(rt; keys.len(), 5000);
    let some = [keys[0], keys[714], keys[715], keys[1430]];
    assert!(rt; some == [0, 4998, 1, 2]);
}

#[test]
fn ids_far_apart(rt: HostRuntime) {
    let ids = vec![in rt.alloc(); i64::MAX, -1, i64::MIN, 5].expect(&rt, "ids");
    let remainders = vec![in rt.alloc(); 0, 0, 1, 0].expect(&rt, "remainders");
    let columns = two_columns(&rt, ids, remainders);
    let keys = keys_in(&rt, &catalog(&rt, TWO_ORDERS), columns, 1, 0);
    assert!(rt; keys.as_slice() == [-1, 5, i64::MAX, i64::MIN].as_slice());
}

/// Columns of ids, cities and values.
fn cities(rt: &(impl Abort + AllocGlobal), rows: &[(i64, &str)]) -> Vec<Cells> {
    let mut ids = Vec::new(rt.alloc());
    let mut names = Texts::new(rt.alloc());
    let mut values = Vec::new(rt.alloc());
    for (id, name) in rows {
        ids.push(*id).expect(rt, "memory");
        let name = Word::new(name).expect(rt, "a short text");
        names.push(name.as_str()).expect(rt, "memory");
        values.push(0).expect(rt, "memory");
    }
    vec![in rt.alloc(); Cells::Ints(ids), Cells::Texts(names), Cells::Ints(values)].expect(
        rt,
        "three columns",
    )
}

/// Whether the rows of cities are in this order of their ids in a segment of the second projection.
fn stand_in_order(
    rt: &(impl Threads + Sync + Abort + AllocGlobal),
    rows: &[(i64, &str)],
    s: u16,
    wanted: &[i64],
) -> bool {
    let keys = keys_in(rt, &catalog(rt, CITIES), cities(rt, rows), 1, s);
    keys.as_slice() == wanted
}

#[test]
fn ties_by_a_key_that_the_projection_lacks(rt: HostRuntime) {
    let rows = [(7, "ulm"), (9, "bonn"), (-2, "ulm"), (3, "bonn"), (4, "m")];
    assert!(rt; stand_in_order(&rt, &rows, 0, &[3, 9]));
    assert!(rt; stand_in_order(&rt, &rows, 1, &[4, -2, 7]));
    assert!(rt; stand_in_order(&rt, &[], 1, &[]));
}

#[test]
fn texts_that_begin_others(rt: HostRuntime) {
    // texts of more than seven bytes differ only in their cells
    let rows = [
        (3, "abcdefgi"),
        (8, "abcdefgh"),
        (6, "abcdefg"),
        (4, "abcdef\0"),
        (5, "abcdef"),
        (2, "abcdefg"),
        (7, ""),
        (1, "abcdefgh"),
    ];
    assert!(rt; stand_in_order(&rt, &rows, 0, &[7, 5, 4, 2, 6, 1, 8, 3]));
}

#[test]
fn refuses_a_key_that_stands_twice(rt: HostRuntime) {
    let rows = [(7, "ulm"), (9, "bonn"), (7, "m")];
    let fault = fault_of(&rt, &catalog(&rt, CITIES), cities(&rt, &rows));
    assert!(rt; fault == Some(OrderFault::Twice));
}

/// Columns of the ids from 0 on, each with itself as its value.
fn counted(rt: &(impl Abort + AllocGlobal), count: u32) -> Vec<Cells> {
    let mut ids = Vec::new(rt.alloc());
    let mut values = Vec::new(rt.alloc());
    for id in 0..count {
        ids.push(i64::from(id)).expect(rt, "memory");
        values.push(i64::from(id)).expect(rt, "memory");
    }
    two_columns(rt, ids, values)
}

#[test]
fn refuses_the_first_full_range(rt: HostRuntime) {
    // Three ids are below the first cut, and fifteen below the second.
    let catalog = catalog(&rt, THREE_PROJECTIONS);
    for (count, fault) in [
        (1_048_576 + 4, Some(OrderFault::Full { p: 0, s: 1 })),
        (1_048_576 + 3, None),
    ] {
        assert!(rt;
            fault_of(&rt, &catalog, counted(&rt, count)) == fault,
            "{count} ids"
        );
    }
}
