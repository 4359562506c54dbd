//! Of two damaged files the first by name is answered, with any number of workers and any cut.
use crate::answers::{Ask, Refusal, expect};
use crate::stores::Store;
use cs_schema::FileName;
use cs_schema::samples::THREE_PROJECTIONS;
use std::marker::Sync;
use std::process::Abort;
use std::test::Fail;
use std::thread::Threads;
use test_support::samples::ORDER_PARTS;

/// What is left without the second and the third site, in the order of names.
const SURVIVING: [FileName; 8] = [
    FileName::Seg { p: 0, s: 0 },
    FileName::Del { p: 0, s: 0 },
    FileName::Seg { p: 1, s: 1 },
    FileName::Del { p: 1, s: 1 },
    FileName::Seg { p: 2, s: 0 },
    FileName::Del { p: 2, s: 0 },
    FileName::Seg { p: 2, s: 1 },
    FileName::Del { p: 2, s: 1 },
];

/// Damages two files for one call.
fn expect_lesser(
    rt: &(impl Threads + Sync + Abort),
    store: &mut Store,
    lesser: FileName,
    greater: FileName,
) -> Result<(), Fail> {
    store.change_last_byte(lesser)?;
    store.change_last_byte(greater)?;
    let asks = [Ask::Refused(&[2, 3], Refusal::Damaged(lesser))];
    expect(rt, store, &asks)?;
    store.change_last_byte(lesser)?;
    store.change_last_byte(greater)
}

#[test]
fn of_two_damaged_files_the_lesser_is_named(rt: HostRuntime) -> Result<(), Fail> {
    let mut store = Store::made(rt.alloc(), THREE_PROJECTIONS, &ORDER_PARTS)?;
    for (i, lesser) in SURVIVING.iter().enumerate() {
        for greater in SURVIVING.iter().skip(i.saturating_add(1)) {
            expect_lesser(&rt, &mut store, *lesser, *greater)?;
        }
    }
    Ok(())
}
