//! Rows with the same sort value are ordered by primary key.
ghost use Rattle.std.specs.Prelude.{◌≤◌};

use crate::stores::Store;
use cs_rebuild::rebuild;
use cs_schema::samples::TWO_ORDERS;
use cs_schema::{Cells, FileName};
use cs_segment::segment::{Segment, read_segment};
use std::alloc::Global;
use std::marker::Sync;
use std::process::Abort;
use std::test::Fail;
use std::thread::Threads;
use test_support::columns::Column;
use test_support::stores::loss_of;

/// The rows (i, i mod 7) for i below 5,000. The second order is lost.
fn remainders(alloc: Global) -> Result<Store, Fail> {
    let mut ids = Vec::new(alloc);
    let mut remainders = Vec::new(alloc);
    for id in 0i64..5_000 {
        ids.push(id)?;
        remainders.push(id % 7)?;
    }
    let mut store = Store::of(alloc, TWO_ORDERS)?;
    let columns = [Column::Ints(&ids), Column::Ints(&remainders)];
    store.put_segment(0, 0, &columns)?;
    Ok(store)
}

/// The file of the lost segment.
fn second_order<R: Threads + Sync>(rt: &R, store: &Store, workers: u32) -> Result<Vec<u8>, Fail>
    requires low { 1 ≤ workers }
    requires high { workers ≤ 64 }
{
    let files = rebuild(
        rt,
        store.alloc,
        &store.catalog,
        &store.files,
        loss_of(&[2]),
        workers,
        1_000,
    )?;
    let bytes = files.get(FileName::Seg { p: 1, s: 0 }).ok_or("no segment")?;
    Ok(bytes.to_vec(store.alloc)?)
}

/// The id at a position.
fn id_at(segment: &Segment, position: usize) -> Option<i64> {
    match segment.columns.first() {
        Some(Cells::Ints(ids)) => ids.get(position).copied(),
        _ => None,
    }
}

/// Positions in the second order, and the ids there.
const IDS: [(usize, i64); 4] = [(0, 0), (714, 4998), (715, 1), (1_430, 2)];

fn expect_ids(rt: &impl Abort, store: &Store, bytes: &[u8]) -> Result<(), Fail> {
    if store.catalog.projection_count() <= 1 {
        return Err(Fail::from("there is no second order"));
    }
    let Ok(segment) = read_segment(store.alloc, &store.catalog, 1, 0, bytes) else {
        return Err(Fail::from("the segment is not read"));
    };
    for (position, id) in IDS.iter() {
        assert_eq!(rt; id_at(&segment, *position), Some(*id), "at {position}");
    }
    Ok(())
}

#[test]
fn ties_stand_by_primary_key(rt: HostRuntime) -> Result<(), Fail> {
    let store = remainders(rt.alloc())?;
    let bytes = second_order(&rt, &store, 1)?;
    assert_eq!(rt; bytes.len(), 80_062);
    expect_ids(&rt, &store, &bytes)?;
    for workers in [2, 64] {
        let others = second_order(&rt, &store, workers)?;
        assert_eq!(rt; others.as_slice(), bytes.as_slice(), "{workers} workers");
    }
    Ok(())
}
