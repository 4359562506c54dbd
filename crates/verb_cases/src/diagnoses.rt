//! What a diagnosis says of a case, and what becomes of the losses that explain it.
use crate::diagnosis_cases::Case;
use crate::diagnosis_changes::Changed;
use crate::small_stores::{built, catalog_of, run_of};
use anyhow::{Result, anyhow};
use cs_diagnosis::{are_absent, diagnose, disputed_rows};
use cs_rebuild::{check, rebuild};
use cs_schema::{Catalog, Loss};
use cs_store::FileSet;
use pinepolo_answers::Diagnosed;
use pinepolo_run::FailedCalls;
use pinepolo_text::{At, DiagnosedText};
use std::alloc::Global;
use std::marker::Sync;
use std::thread::Threads;
use test_support::file_sets::{copy_of, put_all};

/// The case's files, and the names that can't be read.
fn changed<R: Threads + Sync>(
    rt: &R,
    alloc: Global,
    catalog: &Catalog,
    case: &Case<'_>,
) -> Result<Changed> {
    let files = built(rt, alloc, catalog, case.rows)?;
    let others = built(rt, alloc, catalog, case.others)?;
    let mut changed = Changed {
        files,
        unreadable: Vec::new(alloc),
    };
    for change in case.changes {
        changed.change(alloc, catalog, &others, change)?;
    }
    Ok(changed)
}

/// How many rows a store has once what a loss took is rebuilt and put back.
fn recovered<R: Threads + Sync>(
    rt: &R,
    alloc: Global,
    catalog: &Catalog,
    files: &FileSet,
    loss: Loss,
) -> Result<u64> {
    let rebuilt = rebuild(rt, alloc, catalog, files, loss, 2, 2);
    let rebuilt = rebuilt.ok().ok_or(anyhow!("not rebuilt"))?;
    let mut whole = copy_of(alloc, files)?;
    put_all(alloc, &mut whole, &rebuilt)?;
    check(rt, alloc, catalog, &whole, 0, 2, 2)
        .ok()
        .ok_or(anyhow!("not sound"))
}

/// The text of a diagnosis.
fn text_of<'a>(diagnosed: &'a Diagnosed, calls: &'a FailedCalls) -> DiagnosedText<'a> {
    let at = At {
        store: "store",
        sites: None,
        calls,
        prefix: "",
    };
    DiagnosedText { diagnosed, at }
}

/// Prints what a diagnosis says of a case, and that each loss which explains it recovers it.
pub fn tell<R: Threads + Sync + AllocGlobal + Print>(rt: &R, case: &Case<'_>) -> Result<()> {
    let alloc = rt.alloc();
    let what = case.what;
    println!(rt; "# {what}")?;
    let catalog = catalog_of(alloc, case.catalog, case.by_rows)?;
    let Changed { files, unreadable } = changed(rt, alloc, &catalog, case)?;
    let run = run_of(rt, alloc);
    let at_most = case.at_most.map(|sites| sites.min(16));
    if !are_absent(&files, unreadable.as_slice()) {
        return Err(anyhow!("an unreadable file is there"));
    }
    let diagnosis = diagnose(&run, &catalog, &files, unreadable.as_slice(), at_most)?;
    for explanation in &diagnosis.explanations {
        let loss = explanation.loss;
        let rows = recovered(rt, alloc, &catalog, &files, loss)?;
        println!(rt; "recovered after the loss of {loss}: {rows} rows")?;
    }
    let disputes = disputed_rows(alloc, &catalog, &diagnosis, 2)?;
    let diagnosed = Diagnosed {
        catalog,
        diagnosis,
        fatal: Vec::new(alloc),
        disputes,
        changed: Vec::new(alloc),
        unfinished: None,
    };
    let calls = FailedCalls::new(alloc)?;
    let text = text_of(&diagnosed, &calls);
    print!(rt; "{text}")?;
    Ok(())
}
