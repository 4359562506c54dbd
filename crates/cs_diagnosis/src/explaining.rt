//! The search for explanations by walking what losses leave.
ghost use Rattle.std.specs.Prelude.{◌≡◌, ◌≤◌, ◌++◌, ◌∷◌, [], IfOk, OnOk, Option};
ghost use Rattle.cs_schema.specs.FileNames.{FileContents};
ghost use Rattle.cs_schema.specs.Rows.{IsTable};
ghost use Rattle.cs_safety.specs.Safety.{IsSafe};
ghost use Rattle.cs_safety.specs.Within.{IsWithin};
ghost use Rattle.cs_recovery.specs.Holding.{HoldsSurvivors};
ghost use Rattle.cs_rebuild.specs.OnStore.{table_on};
ghost use Rattle.cs_rebuild.specs.Steps.{AreRead};
ghost use Rattle.cs_diagnosis.specs.declared.conflicts.Conflicts.{Conflicts as ConflictsData};
ghost use Rattle.cs_diagnosis.specs.Explanations.{AreForced};
ghost use Rattle.cs_diagnosis.specs.Findings.{AreExplanations};
ghost use Rattle.cs_diagnosis.specs.Tried.{IsTried};
ghost use Rattle.cs_diagnosis.specs.Diagnoses.{rows_found};
ghost use Rattle.cs_diagnosis.specs.Known.{IsKnown, IsKeptTable, NoneIsHit};
ghost use Rattle.cs_diagnosis.specs.Walks.{IsPlanKept, IsRefuted};

use crate::findings::Explanation;
use crate::known::Known;
use crate::search::{Findings, may_explain};
use crate::tables::FoundTable;
use crate::{Candidate, Conflicts, Remains, find_candidate};
use cs_design::order::all_losses;
use cs_rebuild::Run;
use cs_schema::Loss;
use pinepolo_progress::Progress;
use std::alloc::AllocError;
use std::marker::Sync;
use std::thread::Threads;

/// Adds a loss that explains the store by a known table.
fn keep_known(
    findings: &mut Findings<FoundTable>,
    loss: Loss,
    table: usize,
) -> Result<(), AllocError>
    ensures { OnOk result ((findings.new.explanations.items
        ≡ findings.old.explanations.items ++ (record { loss = loss; table = table }) ∷ [])
        × (findings.new.tables.items ≡ findings.old.tables.items)) }
{
    findings.explanations.push(Explanation { loss, table })?;
    Ok(())
}

/// Adds a loss that explains the store by a new table, and the conflicts of that table.
fn keep_new(
    findings: &mut Findings<FoundTable>,
    known: &mut Known,
    loss: Loss,
    table: FoundTable,
    conflicts: Conflicts,
) -> Result<(), AllocError>
    ensures { OnOk result (IsKeptTable loss table conflicts findings.old findings.new known.old known.new) }
{
    findings.tables.push(table)?;
    known.conflicts.push(conflicts)?;
    let place = findings.tables.len() - 1;
    keep_known(findings, loss, place)
}

/// The table of a candidate.
fn table_of<R: Threads + Sync, G>(
    run: &Run<'_, R, G>,
    candidate: Candidate<'_>,
) -> Result<FoundTable, AllocError>
    requires { IsTable candidate.store.catalog.now (table_on candidate.store) }
    ensures { IfOk result (λ table. rows_found table ≡ table_on candidate.entry.store) }
{
    let _rules = candidate.store.catalog.projection_count();
    match candidate.columns(run) {
        Ok(columns) => Ok(FoundTable { columns }),
        Err(refused) => Err(refused),
    }
}

/// Walks what survives a loss and stores the result for its plan. If the loss is accepted, it is added as an
/// explanation by a new table.
fn walk_loss<R: Threads + Sync, G: Progress + Sync>(
    findings: &mut Findings<FoundTable>,
    known: &mut Known,
    run: &Run<'_, R, G>,
    remains: &Remains<'_>,
    loss: Loss,
) -> Result<(), AllocError>
    requires safe { IsSafe remains.now.catalog.now loss }
    requires within { IsWithin remains.now.first loss }
    requires read { (F : FileContents) × AreRead remains.now.catalog.now F remains.now.first remains.now.survivors.now }
    requires unknown { NoneIsHit known.old.conflicts.items loss }
    requires unrefuted { ¬ IsRefuted remains.now.catalog.now loss known.old.walks }
    ensures tried { OnOk result ((F : FileContents) → AreRead remains.now.catalog.now F remains.now.first remains.now.survivors.now
        → IsKnown remains.now.catalog.now F remains.now.first findings.old.tables.items known.old
        → IsTried (HoldsSurvivors remains.now.catalog.now F loss) rows_found loss findings.old findings.new
        × IsKnown remains.now.catalog.now F remains.now.first findings.new.tables.items known.new) }
    ensures kept { OnOk result ((conflicts : Option ConflictsData)
        × IsPlanKept remains.now.catalog.now loss conflicts known.old.walks known.new.walks) }
{
    run.gate.tried(loss);
    match find_candidate(run, remains, loss)? {
        None => known.walks.keep(remains.catalog, loss, None),
        Some(candidate) => {
            let kept = candidate.conflicts;
            let conflicts = &kept;
            known.walks.keep(remains.catalog, loss, Some(*conflicts))?;
            if conflicts.are_hit(loss) {
                let table = table_of(run, candidate)?;
                keep_new(findings, known, loss, table, *conflicts)
            } else {
                Ok(())
            }
        }
    }
}

/// Tries one loss, and adds it as an explanation if it is accepted. It is walked only if neither a known table nor the
/// result of its plan decides.
fn try_loss<R: Threads + Sync, G: Progress + Sync>(
    findings: &mut Findings<FoundTable>,
    known: &mut Known,
    run: &Run<'_, R, G>,
    remains: &Remains<'_>,
    loss: Loss,
) -> Result<(), AllocError>
    requires safe { IsSafe remains.now.catalog.now loss }
    requires within { IsWithin remains.now.first loss }
    requires read { (F : FileContents) × AreRead remains.now.catalog.now F remains.now.first remains.now.survivors.now }
    ensures { OnOk result ((F : FileContents) → AreRead remains.now.catalog.now F remains.now.first remains.now.survivors.now
        → IsKnown remains.now.catalog.now F remains.now.first findings.old.tables.items known.old
        → IsTried (HoldsSurvivors remains.now.catalog.now F loss) rows_found loss findings.old findings.new
        × IsKnown remains.now.catalog.now F remains.now.first findings.new.tables.items known.new) }
{
    match known.table_of(loss) {
        Some(table) => keep_known(findings, loss, table),
        None => {
            if known.walks.refutes(remains.catalog, loss) {
                Ok(())
            } else {
                walk_loss(findings, known, run, remains, loss)
            }
        }
    }
}

/// All explanations of at most `at_most` sites, in the order of losses, each with the index of its table, given what
/// was read of the files that survive the loss of the forced sites.
pub fn explain<R: Threads + Sync, G: Progress + Sync>(
    run: &Run<'_, R, G>,
    remains: &Remains<'_>,
    at_most: u8,
) -> Result<Findings<FoundTable>, AllocError>
    requires at_most { at_most ≤ 16 }
    requires read { (F : FileContents) × AreRead remains.now.catalog.now F remains.now.first remains.now.survivors.now }
    ensures { IfOk result (λ found. (F : FileContents) → AreRead remains.now.catalog.now F remains.now.first remains.now.survivors.now
        → AreForced remains.now.catalog.now (HoldsSurvivors remains.now.catalog.now F) remains.now.first
        → AreExplanations remains.now.catalog.now (HoldsSurvivors remains.now.catalog.now F) at_most
        rows_found found.explanations.items found.tables.items) }
{
    let alloc = run.alloc;
    let losses = all_losses(alloc, remains.catalog, at_most)?;
    let mut findings = Findings {
        explanations: Vec::new(alloc),
        tables: Vec::new(alloc),
    };
    let mut known = Known::new(alloc);
    for loss in &losses {
        if may_explain(
            remains.catalog,
            remains.first,
            findings.explanations.as_slice(),
            *loss,
        ) {
            try_loss(&mut findings, &mut known, run, remains, *loss)?;
        }
    }
    Ok(findings)
}
