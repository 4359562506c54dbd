//! The rules of a catalog that are asked of each projection.
ghost use Rattle.std.specs.Prelude.{◌≡◌, is_none, IfOk};
ghost use Rattle.std.specs.List.{list_all};
ghost use Rattle.cs_schema.specs.Document.{is_from_to};
ghost use Rattle.cs_catalog.specs.Tree.{texts};
ghost use Rattle.cs_catalog.specs.ProjectionRules.{keeps};
ghost use Rattle.cs_schema.specs.Rules.{is_among, are_distinct, is_column, is_projection, number, may_have_code, all_may};
ghost use Rattle.cs_schema.specs.Rules.{has_columns, has_codes, has_sort, has_differences, has_sites, has_joins};

use crate::cuts::cuts_problem;
use crate::document::{ColumnEntry, Document, ProjectionEntry};
use crate::keys::is_from_to;
use crate::lookups::{is_among, is_column, is_int_column, is_projection, leading};
use crate::problem::{Part, Problem};
use cs_schema::limits::SORT_COLUMNS;
use std::alloc::{AllocError, Global};

/// A rule that is asked of each projection.
#[derive(Clone, Copy)]
pub enum ProjectionRule {
    Columns,
    Codes,
    Sort,
    Differences,
    Cuts,
    Sites,
    Joins,
}

/// The first name that occurs earlier in the list. The names are among a few, so this ends early in a list of any
/// length.
fn repeated<'a>(text: &'static str, names: &[&'a str]) -> Option<Problem<'a>>
    ensures { is_none result ≡ are_distinct (texts names.now) }
{
    for (at, name) in names.iter().enumerate() {
        if is_among(name, &names[..at]) {
            return Some(Problem::of(text, Part::Text(name)));
        }
    }
    None
}

/// A list of the wrong length: the text mentions both lengths.
fn lengths(text: &'static str, found: usize, wanted: usize) -> Problem<'static> {
    Problem::of_two(text, Part::Count(found), Part::Count(wanted))
}

fn is_up_to(most: i64, value: i64) -> bool
    ensures { result ≡ is_from_to 1 (number most) value }
{
    1 <= value && value <= most
}

/// The first number that is out of range: the text mentions its index, the number and the maximum.
fn out_of_range(text: &'static str, most: i64, numbers: &[i64]) -> Option<Problem<'static>>
    ensures { is_none result ≡ list_all (is_from_to 1 (number most)) numbers.now }
{
    for (at, number) in numbers.iter().enumerate() {
        if !is_up_to(most, *number) {
            let (at, number) = (Part::Count(at), Part::Number(*number));
            return Some(Problem::of_two(text, at, number).and(Part::Number(most)));
        }
    }
    None
}

/// The index of the first name that no column has.
fn no_column(columns: &[ColumnEntry], names: &[&str]) -> Option<usize>
    ensures { is_none result ≡ list_all (is_column columns.now) (texts names.now) }
{
    for (at, name) in names.iter().enumerate() {
        if !is_column(columns, name) {
            return Some(at);
        }
    }
    None
}

fn columns_problem<'a>(
    columns: &[ColumnEntry],
    projection: &ProjectionEntry<'a>,
) -> Option<Problem<'a>>
    ensures { is_none result ≡ has_columns columns.now projection.now }
{
    if projection.columns.is_empty() {
        return Some(Problem::said("columns is empty"));
    }
    if let Some(at) = no_column(columns, &projection.columns) {
        let text = "columns[{}] is not a column of the table";
        return Some(Problem::of(text, Part::Count(at)));
    }
    repeated("columns has {} more than once", &projection.columns)
}

fn codes_problem(projection: &ProjectionEntry) -> Option<Problem<'static>>
    ensures { is_none result ≡ has_codes projection.now }
{
    let (found, wanted) = (projection.code_numbers.len(), projection.columns.len());
    if found != wanted {
        return Some(lengths("codes has {} numbers, but must have {}", found, wanted));
    }
    let text = "codes[{}] is {}, but must be between 1 and {}";
    out_of_range(text, 4, &projection.code_numbers)
}

/// The index of the first name that is not one of these.
fn not_among(names: &[&str], all: &[&str]) -> Option<usize>
    ensures { is_none result ≡ list_all (λ name. is_among name (texts all.now)) (texts names.now) }
{
    for (at, name) in names.iter().enumerate() {
        if !is_among(name, all) {
            return Some(at);
        }
    }
    None
}

fn sort_problem<'a>(projection: &ProjectionEntry<'a>) -> Option<Problem<'a>>
    ensures { is_none result ≡ has_sort projection.now }
{
    let found = projection.sort.len();
    if found < 1 || SORT_COLUMNS < found {
        let text = "sort has {} names, but must have between 1 and 4";
        return Some(Problem::of(text, Part::Count(found)));
    }
    if let Some(at) = not_among(&projection.sort, &projection.columns) {
        let text = "sort[{}] is not a column of the projection";
        return Some(Problem::of(text, Part::Count(at)));
    }
    repeated("sort has {} more than once", &projection.sort)
}

fn may_have_code(columns: &[ColumnEntry], first: &str, name: &str, code: i64) -> bool
    ensures { result ≡ may_have_code columns.now first.now name.now code }
{
    !is_from_to(3, 3, code) || (name == first && is_int_column(columns, first))
}

/// The index of the first name that may not have its code.
fn misplaced(columns: &[ColumnEntry], first: &str, names: &[&str], codes: &[i64]) -> Option<usize>
    ensures { is_none result ≡ all_may columns.now first.now (texts names.now) codes.now }
{
    let shared = names.len().min(codes.len());
    for i in 0..shared {
        if !may_have_code(columns, first, names[i], codes[i]) {
            return Some(i);
        }
    }
    None
}

fn differences_problem(
    columns: &[ColumnEntry],
    projection: &ProjectionEntry,
) -> Option<Problem<'static>>
    ensures { is_none result ≡ has_differences columns.now projection.now }
{
    let (first, codes) = (leading(projection), &projection.code_numbers);
    let at = Part::Count(misplaced(columns, first, &projection.columns, codes)?);
    let text = "codes[{}] is 3, which only a first sort column of ints may have";
    Some(Problem::of(text, at))
}

fn sites_problem(sites: i64, projection: &ProjectionEntry) -> Option<Problem<'static>>
    ensures { is_none result ≡ has_sites (number sites) projection.now }
{
    let (found, cuts) = (projection.site_numbers.len(), projection.cuts.len());
    if found != cuts + 1 {
        return Some(lengths("sites has {} numbers, but must have {}", found, cuts + 1));
    }
    let text = "sites[{}] is {}, but must be between 1 and {}";
    out_of_range(text, sites, &projection.site_numbers)
}

/// The index of the first name that no projection has.
fn no_projection(projections: &[ProjectionEntry], names: &[&str]) -> Option<usize>
    ensures { is_none result ≡ list_all (is_projection projections.now) (texts names.now) }
{
    for (at, name) in names.iter().enumerate() {
        if !is_projection(projections, name) {
            return Some(at);
        }
    }
    None
}

fn joins_problem<'a>(
    projections: &[ProjectionEntry],
    projection: &ProjectionEntry<'a>,
) -> Option<Problem<'a>>
    ensures { is_none result ≡ has_joins projections.now projection.now }
{
    if let Some(at) = no_projection(projections, &projection.joins) {
        let text = "joins[{}] is not the name of a projection";
        return Some(Problem::of(text, Part::Count(at)));
    }
    if is_among(projection.name, &projection.joins) {
        return Some(Problem::said("joins names the projection itself"));
    }
    repeated("joins has {} more than once", &projection.joins)
}

/// What breaks a rule in a projection, if anything.
pub fn projection_problem<'a>(
    alloc: Global,
    rule: ProjectionRule,
    document: &Document<'a>,
    projection: &ProjectionEntry<'a>,
) -> Result<Option<Problem<'a>>, AllocError>
    ensures { IfOk result (λ problem. is_none problem ≡ keeps rule document.now projection.now) }
{
    let columns = document.columns.as_slice();
    match rule {
        ProjectionRule::Columns => Ok(columns_problem(columns, projection)),
        ProjectionRule::Codes => Ok(codes_problem(projection)),
        ProjectionRule::Sort => Ok(sort_problem(projection)),
        ProjectionRule::Differences => Ok(differences_problem(columns, projection)),
        ProjectionRule::Cuts => cuts_problem(alloc, columns, projection),
        ProjectionRule::Sites => Ok(sites_problem(document.sites, projection)),
        ProjectionRule::Joins => Ok(joins_problem(&document.projections, projection)),
    }
}
