//! The rules of a catalog, each checked on the whole document.
ghost use Rattle.std.specs.Prelude.{◌≡◌, ◌≢◌, is_none, None, IfOk, IfErr};
ghost use Rattle.std.specs.List.{list_all};
ghost use Rattle.cs_catalog.specs.ProjectionRules.{keeps};
ghost use Rattle.cs_catalog.specs.Refusals.{rule_of};
ghost use Rattle.cs_schema.specs.Rules.{sizes_hold, is_kind, kinds_hold, key_holds, is_stored, columns_are_stored, safety_holds};
ghost use Rattle.cs_schema.specs.Rules.{document_rules, least_broken};

use crate::document::{ColumnEntry, Document, ProjectionEntry};
use crate::fault::{Refusal, refuse};
use crate::keys::is_from_to;
use crate::lookups::{is_among, is_column};
use crate::names::names_problem;
use crate::problem::{Part, Place, Problem};
use crate::projection_rules::{ProjectionRule, projection_problem};
use cs_schema::limits::{COLUMNS, PROJECTIONS, SITES};
use std::alloc::{AllocError, Global};

fn sizes_problem(document: &Document) -> Option<Problem<'static>>
    ensures { is_none result ≡ sizes_hold document.now }
{
    let (columns, projections) = (document.columns.len(), document.projections.len());
    if !is_from_to(1, SITES, document.sites) {
        let sites = Part::Number(document.sites);
        Some(Problem::of("sites must be between 1 and 16, not {}", sites))
    } else if columns < 1 || COLUMNS < columns {
        let text = "there must be between 1 and 32 columns, not {}";
        Some(Problem::of(text, Part::Count(columns)))
    } else if projections < 1 || PROJECTIONS < projections {
        let text = "there must be between 1 and 8 projections, not {}";
        Some(Problem::of(text, Part::Count(projections)))
    } else {
        None
    }
}

fn is_kind(kind: &str) -> bool
    ensures { result ≡ is_kind kind.now }
{
    kind == "int" || kind == "text"
}

fn kinds_problem<'a>(document: &Document<'a>) -> Option<Problem<'a>>
    ensures { is_none result ≡ kinds_hold document.now }
{
    let columns = document.columns.as_slice();
    for column in columns {
        if !is_kind(column.kind) {
            let name = Part::Text(column.name);
            return Some(Problem::of("column {}: kind is neither int nor text", name));
        }
    }
    None
}

fn key_problem(document: &Document) -> Option<Problem<'static>>
    ensures { is_none result ≡ key_holds document.now }
{
    if is_column(&document.columns, document.key) {
        None
    } else {
        Some(Problem::said("key is not the name of a column"))
    }
}

/// What breaks a rule in the first projection that breaks it, if any.
fn in_projections<'a>(
    alloc: Global,
    rule: ProjectionRule,
    document: &Document<'a>,
) -> Result<Option<Problem<'a>>, AllocError>
    ensures { IfOk result (λ problem. is_none problem ≡ list_all (keeps rule document.now) document.now.projections) }
{
    let projections = document.projections.as_slice();
    for projection in projections {
        if let Some(problem) = projection_problem(alloc, rule, document, projection)? {
            let place = Place::Projection(projection.name);
            return Ok(Some(problem.at(place)));
        }
    }
    Ok(None)
}

fn is_stored(projections: &[ProjectionEntry], column: &ColumnEntry) -> bool
    ensures { result ≡ is_stored projections.now column.now }
{
    for projection in projections {
        if is_among(column.name, &projection.columns) {
            return true;
        }
    }
    false
}

fn stored_problem<'a>(document: &Document<'a>) -> Option<Problem<'a>>
    ensures { is_none result ≡ columns_are_stored document.now }
{
    let projections = document.projections.as_slice();
    let columns = document.columns.as_slice();
    for column in columns {
        if !is_stored(projections, column) {
            let name = Part::Text(column.name);
            return Some(Problem::of("column {} is in no projection", name));
        }
    }
    None
}

fn safety_problem(document: &Document) -> Option<Problem<'static>>
    ensures { is_none result ≡ safety_holds document.now }
{
    if document.safety == "whole" || document.safety == "rows" {
        None
    } else {
        Some(Problem::said("safety is neither whole nor rows"))
    }
}

/// Refuses a document by the first rule from 3 on that it breaks.
pub fn check_rules<'a>(alloc: Global, document: &Document<'a>) -> Result<(), Refusal<'a>>
    ensures kept { IfOk result (λ _. least_broken 3 document_rules document.now ≡ None) }
    ensures broken { IfErr result (λ refusal. refusal ≢ Refusal.Memory → rule_of refusal ≡ least_broken 3 document_rules document.now) }
{
    refuse(3, names_problem(alloc, document)?)?;
    refuse(4, sizes_problem(document))?;
    refuse(5, kinds_problem(document))?;
    refuse(6, key_problem(document))?;
    refuse(7, in_projections(alloc, ProjectionRule::Columns, document)?)?;
    refuse(8, in_projections(alloc, ProjectionRule::Codes, document)?)?;
    refuse(9, in_projections(alloc, ProjectionRule::Sort, document)?)?;
    refuse(
        10,
        in_projections(alloc, ProjectionRule::Differences, document)?,
    )?;
    refuse(11, in_projections(alloc, ProjectionRule::Cuts, document)?)?;
    refuse(12, in_projections(alloc, ProjectionRule::Sites, document)?)?;
    refuse(13, in_projections(alloc, ProjectionRule::Joins, document)?)?;
    refuse(14, stored_problem(document))?;
    refuse(15, safety_problem(document))
}
