//! One row more than a range may have.
use crate::stores::Store;
use cs_rebuild::rebuild;
use cs_schema::Loss;
use cs_store::Fault;
use std::alloc::Global;
use std::test::Fail;
use test_support::columns::Column;

/// One column in two projections. The first is cut at the point at which the second is full.
const CUT_WHERE_FULL: &str = r#"version = 1
table = "t"
key = "id"
sites = 2
column = [{name = "id", kind = "int"}]
[[projection]]
name = "a"
columns = ["id"]
codes = [3]
sort = ["id"]
cuts = [1048576]
sites = [1, 1]
joins = []
[[projection]]
name = "b"
columns = ["id"]
codes = [3]
sort = ["id"]
cuts = []
sites = [2]
joins = []
"#;

/// The maximum number of rows of a range.
const MOST: u32 = 1_048_576;

/// Puts a segment of the first projection with this many consecutive ints.
fn put_rising(store: &mut Store, s: u16, first: i64, rows: u32) -> Result<(), Fail> {
    let mut ints = Vec::new(store.alloc);
    for row in 0..rows {
        ints.push(first.saturating_add(i64::from(row)))?;
    }
    store.put_segment(0, s, &[Column::Ints(&ints)])
}

/// The first segment has as many rows as fit into a range, the second one more.
fn with_one_too_many(alloc: Global) -> Result<Store, Fail> {
    let mut store = Store::of(alloc, CUT_WHERE_FULL)?;
    put_rising(&mut store, 0, 0, MOST)?;
    put_rising(&mut store, 1, i64::from(MOST), 1)?;
    Ok(store)
}

#[test]
fn a_range_with_one_row_too_many_is_full(rt: HostRuntime) -> Result<(), Fail> {
    let store = with_one_too_many(rt.alloc())?;
    let out = rebuild(
        &rt,
        store.alloc,
        &store.catalog,
        &store.files,
        Loss::none().with(2),
        2,
        MOST,
    );
    assert_eq!(rt; out.err(), Some(Fault::Full { p: 1, s: 0 }));
    Ok(())
}
