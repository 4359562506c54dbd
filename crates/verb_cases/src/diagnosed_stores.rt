//! Small stores in memory that were changed: what a diagnosis says of each, and that every loss which explains one recovers
//! it.
use crate::diagnoses::tell;
use crate::diagnosis_cases::{split, three, two, with_at_most};
use crate::diagnosis_changes::Change;
use anyhow::Result;
use std::marker::Sync;
use std::thread::Threads;

/// Each of the six sites is stale in turn.
fn tell_stale<R: Threads + Sync + AllocGlobal + Print>(rt: &R, by_rows: bool) -> Result<()> {
    for site in 1..7u8 {
        let changes = [Change::Stale(site)];
        tell(rt, &three("a stale site", by_rows, &changes))?;
    }
    Ok(())
}

/// Damage by one rule of safety or the other.
fn tell_damage<R: Threads + Sync + AllocGlobal + Print>(rt: &R, by_rows: bool) -> Result<()> {
    let lost_and_stale = [Change::Lost(5), Change::Stale(1)];
    let case = three("a lost site beside a stale one", by_rows, &lost_and_stale);
    tell(rt, &case)?;
    tell(rt, &with_at_most(case, 2))?;
    let unreadable = [Change::Unreadable(0, 1)];
    tell(rt, &three("an unreadable segment", by_rows, &unreadable))?;
    let misled = [Change::Misled(0, 1, 0, 2)];
    tell(
        rt,
        &split("a join index that misleads from one row", by_rows, &misled),
    )
}

/// What a diagnosis says of each of these stores.
pub fn tell_diagnoses<R: Threads + Sync + AllocGlobal + Print>(rt: &R) -> Result<()> {
    tell(rt, &three("nothing", false, &[]))?;
    for by_rows in [false, true] {
        tell_stale(rt, by_rows)?;
        tell_damage(rt, by_rows)?;
    }
    let stale = [Change::Stale(2)];
    tell(rt, &two("two sites with different tables", &stale))?;
    let lost = [Change::Lost(1), Change::Lost(3), Change::Lost(5)];
    tell(
        rt,
        &three("a site of each projection is lost", false, &lost),
    )
}
