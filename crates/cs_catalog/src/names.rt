//! The rule on names.
ghost use Rattle.std.specs.Prelude.{◌≡◌, is_none, map, IfOk};
ghost use Rattle.std.specs.List.{list_all};
ghost use Rattle.cs_catalog.specs.Tree.{texts};
ghost use Rattle.cs_catalog.specs.Repeats.{neighbors_differ};
ghost use Rattle.cs_schema.specs.Rules.{are_distinct, are_names, is_lowercase, is_name, is_name_byte, names_hold};

use crate::document::{ColumnEntry, Document, ProjectionEntry};
use crate::problem::{Part, Problem};
use cs_schema::limits::NAME_BYTES;
use std::alloc::{AllocError, Global};

fn is_lowercase(byte: u8) -> bool
    ensures { result ≡ is_lowercase byte }
{
    matches!(byte, b'a'..=b'z')
}

fn is_name_byte(byte: u8) -> bool
    ensures { result ≡ is_name_byte byte }
{
    matches!(byte, b'a'..=b'z' | b'0'..=b'9' | b'_')
}

fn are_name_bytes(bytes: &[u8]) -> bool
    ensures { result ≡ list_all is_name_byte bytes.now }
{
    bytes.iter().all(|byte| is_name_byte(*byte))
}

fn is_name(name: &str) -> bool
    ensures { result ≡ is_name name.now }
{
    match name.as_bytes().split_first() {
        Some((first, rest)) => is_lowercase(*first)
            && are_name_bytes(rest)
            && rest.len() < NAME_BYTES,
        None => false,
    }
}

/// A name that breaks the rule on names: what kind of item has it, and which one.
const NAME: &str =
    "{}{}: a name has 1 to 32 bytes, the first a to z, the others a to z, 0 to 9 or _";

/// The index of the first invalid name.
fn invalid(names: &[&str]) -> Option<usize>
    ensures { is_none result ≡ list_all is_name (texts names.now) }
{
    for (at, name) in names.iter().enumerate() {
        if !is_name(name) {
            return Some(at);
        }
    }
    None
}

/// The first name that is equal to the one before it.
fn equal_neighbor<'a>(names: &[&'a str]) -> Option<&'a str>
    ensures { is_none result ≡ neighbors_differ (texts names.now) }
{
    let (mut last, rest) = names.split_first()?;
    for name in rest {
        if last == name {
            return Some(name);
        }
        last = name;
    }
    None
}

/// The least name that occurs twice. Sorting brings equal names together, of which there may be many.
fn least_repeated<'a>(names: Vec<&'a str>) -> Option<&'a str>
    ensures { is_none result ≡ are_distinct (texts names.entry.items) }
{
    let mut names = names;
    names.sort_unstable();
    equal_neighbor(&names)
}

/// The first invalid or else the least repeated name of a `list`.
fn list_problem<'a>(list: &'static str, names: Vec<&'a str>) -> Option<Problem<'a>>
    ensures { is_none result ≡ are_names (texts names.entry.items) }
{
    if let Some(at) = invalid(&names) {
        return Some(Problem::of_two(NAME, Part::Text(list), Part::Count(at)));
    }
    let (list, name) = (Part::Text(list), Part::Text(least_repeated(names)?));
    Some(Problem::of_two("{}{} specified more than once", list, name))
}

fn column_names<'a>(alloc: Global, columns: &[ColumnEntry<'a>]) -> Result<Vec<&'a str>, AllocError>
    ensures { IfOk result (λ v. texts v.items ≡ map (λ c. c.name) columns.now) }
{
    let mut names = Vec::new(alloc);
    for column in columns {
        names.push(column.name)?;
    }
    Ok(names)
}

fn projection_names<'a>(
    alloc: Global,
    projections: &[ProjectionEntry<'a>],
) -> Result<Vec<&'a str>, AllocError>
    ensures { IfOk result (λ v. texts v.items ≡ map (λ p. p.name) projections.now) }
{
    let mut names = Vec::new(alloc);
    for projection in projections {
        names.push(projection.name)?;
    }
    Ok(names)
}

/// What breaks the rule on names, if anything.
pub fn names_problem<'a>(
    alloc: Global,
    document: &Document<'a>,
) -> Result<Option<Problem<'a>>, AllocError>
    ensures { IfOk result (λ problem. is_none problem ≡ names_hold document.now) }
{
    if !is_name(document.table) {
        return Ok(Some(Problem::of(NAME, Part::Text("table"))));
    }
    let columns = column_names(alloc, &document.columns)?;
    if let Some(problem) = list_problem("column ", columns) {
        return Ok(Some(problem));
    }
    let projections = projection_names(alloc, &document.projections)?;
    Ok(list_problem("projection ", projections))
}
