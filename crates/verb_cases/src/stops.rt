//! Restores stores on shelves in memory that stop at every call in turn, before and after it took effect, and restores each
//! again; and undoes each restore so.
use crate::small_stores::{built, catalog_of};
use crate::stopped_restores::{Trial, run_trial};
use crate::stopped_undos::run_undo;
use anyhow::{Result, anyhow};
use cs_schema::samples::CITIES;
use std::marker::Sync;
use std::thread::Threads;
use test_support::columns::Column;

/// The losses that are tried, each with the text of its line.
const LOSSES: [(&[u8], &str); 3] = [(&[2], "2"), (&[3], "3"), (&[2, 3], "2 and 3")];

/// The rows of the store, by columns.
const ROWS: &[Column<'static>] = &[
    Column::Ints(&[3, 1, 2]),
    Column::Texts(&["la", "ny", "la"]),
    Column::Ints(&[3, 7, 5]),
];

/// Restores the store after one loss, and undoes that, with a stop at every call.
fn tell_stops<R: Threads + Sync + Print>(
    rt: &R,
    trial: &Trial,
    safety: &str,
    name: &str,
) -> Result<()> {
    let found = run_trial(rt, trial)?;
    let (rows, files, stops) = (found.rows, found.files, found.stops);
    println!(rt;
        "safe by {safety}, sites {name} lost: rows={rows}, {files} files, restored again after {stops} stops"
    )?;
    let undone = run_undo(rt, trial)?;
    println!(rt; "  undone, and again after {} stops", undone.stops)?;
    if found.is_same && undone.is_same {
        Ok(())
    } else {
        Err(anyhow!("other files"))
    }
}

/// What comes of each restore and undo that is stopped.
pub fn tell_restores<R: Threads + Sync + AllocGlobal + Print>(rt: &R) -> Result<()> {
    let alloc = rt.alloc();
    for (by_rows, safety) in [(false, "whole projections"), (true, "rows")] {
        let catalog = catalog_of(alloc, CITIES, by_rows)?;
        let whole = built(rt, alloc, &catalog, ROWS)?;
        for (sites, name) in LOSSES {
            let trial = Trial {
                alloc,
                catalog: &catalog,
                whole: &whole,
                sites,
            };
            tell_stops(rt, &trial, safety, name)?;
        }
    }
    Ok(())
}
