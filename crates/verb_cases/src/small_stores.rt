//! Stores in memory, built from rows.
use anyhow::{Result, anyhow};
use cs_catalog::read_catalog;
use cs_rebuild::{OpenGate, Run, are_columns, build};
use cs_schema::Catalog;
use cs_store::FileSet;
use std::alloc::Global;
use std::marker::Sync;
use std::thread::Threads;
use test_support::catalogs::{AS_IT_IS, BY_ROWS, edited};
use test_support::columns::{Column, cells_of};

/// The catalog that a text says, by rows where that is wanted.
pub fn catalog_of(alloc: Global, text: &str, by_rows: bool) -> Result<Catalog> {
    let edits = if by_rows { BY_ROWS } else { AS_IT_IS };
    let text = edited(alloc, text, edits)?;
    read_catalog(alloc, text.as_bytes())
        .ok()
        .ok_or(anyhow!("the catalog is not read"))
}

/// By what the calls run.
pub fn run_of<R>(rt: &R, alloc: Global) -> Run<'_, R, OpenGate> {
    Run {
        rt,
        alloc,
        workers: 2,
        cut: 2,
        gate: &OpenGate,
    }
}

/// The store of rows.
pub fn built<R: Threads + Sync>(
    rt: &R,
    alloc: Global,
    catalog: &Catalog,
    columns: &[Column<'_>],
) -> Result<FileSet> {
    let rows = cells_of(alloc, columns)?;
    if !are_columns(catalog, rows.as_slice()) {
        return Err(anyhow!("no columns of the catalog"));
    }
    build(&run_of(rt, alloc), catalog, rows.as_slice())
        .ok()
        .ok_or(anyhow!("not built"))
}
