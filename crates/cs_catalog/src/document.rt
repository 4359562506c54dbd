//! A catalog's TOML, with each key read at its type.
ghost use Rattle.std.specs.Prelude.{◌≡◌, codes, Some, IfOk, IfErr, map, option_and_then};
ghost use Rattle.toml.specs.Data.{as_table};
ghost use Rattle.toml.specs.View.{view, table_view};
ghost use Rattle.cs_schema.specs.Document.{read_all};
ghost use Rattle.cs_catalog.specs.Tree.{tables_at, column_of, projection_of, document_of};
ghost use Rattle.cs_catalog.specs.Refusals.{rule_of, IsRefused, IsRefusedUnlessMemory};

use crate::fault::Refusal;
use crate::head::head_of;
use crate::keys::{array_at, integers_at, text_at, texts_at};
use crate::problem::{Part, Place, Problem};
use std::alloc::Global;
use std::marker::Model;
use toml::{Table, Value};

/// A column as the TOML describes it.
#[derive(Drop)]
pub struct ColumnEntry<'a> {
    pub name: &'a str,
    pub kind: &'a str,
}

impl<'a> Model for ColumnEntry<'a> {
    ghost use Rattle.cs_schema.specs.Document.{ColumnText};

    ghost Value = { ColumnText };

    ghost view = { λ c. record { name = c.name.now; kind = c.kind.now } };
}

/// A projection as the TOML describes it. The items of `cuts` may have any type.
#[derive(Drop)]
pub struct ProjectionEntry<'a> {
    pub name: &'a str,
    pub columns: Vec<&'a str>,
    pub code_numbers: Vec<i64>,
    pub sort: Vec<&'a str>,
    pub cuts: &'a [Value],
    pub site_numbers: Vec<i64>,
    pub joins: Vec<&'a str>,
}

impl<'a> Model for ProjectionEntry<'a> {
    ghost use Rattle.std.specs.Prelude.{map};
    ghost use Rattle.toml.specs.View.{view as data_of};
    ghost use Rattle.cs_schema.specs.Document.{ProjectionText};
    ghost use Rattle.cs_catalog.specs.Tree.{cut_of, texts};

    ghost Value = { ProjectionText };

    ghost view = { λ p. record {
      name = p.name.now;
      columns = texts p.columns.items;
      code_numbers = p.code_numbers.items;
      sort = texts p.sort.items;
      cuts = map cut_of (map data_of p.cuts.now);
      site_numbers = p.site_numbers.items;
      joins = texts p.joins.items;
    } };
}

/// A catalog's TOML, with each key read at its type.
#[derive(Drop)]
pub struct Document<'a> {
    pub table: &'a str,
    pub key: &'a str,
    pub sites: i64,
    pub safety: &'a str,
    pub columns: Vec<ColumnEntry<'a>>,
    pub projections: Vec<ProjectionEntry<'a>>,
}

impl<'a> Model for Document<'a> {
    ghost use Rattle.cs_schema.specs.Document.{Document as DocumentText};

    ghost Value = { DocumentText };

    ghost view = { λ d. record {
      table_name = d.table.now;
      key = d.key.now;
      site_count = d.sites;
      safety = d.safety.now;
      columns = d.columns.items;
      projections = d.projections.items;
    } };
}

/// The refusal of an item of a list that is not a table.
fn no_table<'a>(list: &'static str, at: usize) -> Refusal<'a>
    ensures { rule_of result ≡ Some 2 }
{
    let (list, at) = (Part::Text(list), Part::Count(at));
    Refusal::Rule(2, Problem::of_two("{} {} is not a table", list, at))
}

fn column(at: usize, value: &Value) -> Result<ColumnEntry<'_>, Refusal<'_>>
    ensures read { IfOk result (λ c. option_and_then column_of (as_table (view value.now)) ≡ Some c) }
    ensures unread { IfErr result (IsRefused 2 (option_and_then column_of (as_table (view value.now)))) }
{
    let Some(table) = value.as_table() else {
        return Err(no_table("column", at));
    };
    let place = Place::Item("column", at);
    let name = text_at(place, table, "name")?;
    let kind = text_at(place, table, "kind")?;
    Ok(ColumnEntry { name, kind })
}

fn projection(alloc: Global, at: usize, value: &Value) -> Result<ProjectionEntry<'_>, Refusal<'_>>
    ensures read { IfOk result (λ p. option_and_then projection_of (as_table (view value.now)) ≡ Some p) }
    ensures unread { IfErr result (IsRefusedUnlessMemory 2 (option_and_then projection_of (as_table (view value.now)))) }
{
    let Some(table) = value.as_table() else {
        return Err(no_table("projection", at));
    };
    let place = Place::Item("projection", at);
    let name = text_at(place, table, "name")?;
    let columns = texts_at(alloc, place, table, "columns")?;
    let code_numbers = integers_at(alloc, place, table, "codes")?;
    let sort = texts_at(alloc, place, table, "sort")?;
    let cuts = array_at(place, table, "cuts", "is not an array")?;
    let site_numbers = integers_at(alloc, place, table, "sites")?;
    let joins = texts_at(alloc, place, table, "joins")?;
    Ok(ProjectionEntry {
        name,
        columns,
        code_numbers,
        sort,
        cuts,
        site_numbers,
        joins,
    })
}

fn columns(alloc: Global, values: &[Value]) -> Result<Vec<ColumnEntry<'_>>, Refusal<'_>>
    ensures read { IfOk result (λ v. read_all (λ d. option_and_then column_of (as_table d)) (map view values.now) ≡ Some v.items) }
    ensures unread { IfErr result (IsRefusedUnlessMemory 2 (read_all (λ d. option_and_then column_of (as_table d)) (map view values.now))) }
{
    let mut found = Vec::new(alloc);
    for (at, value) in values.iter().enumerate() {
        let entry = column(at, value)?;
        found.push(entry)?;
    }
    Ok(found)
}

fn projections(alloc: Global, values: &[Value]) -> Result<Vec<ProjectionEntry<'_>>, Refusal<'_>>
    ensures read { IfOk result (λ v. read_all (λ d. option_and_then projection_of (as_table d)) (map view values.now) ≡ Some v.items) }
    ensures unread { IfErr result (IsRefusedUnlessMemory 2 (read_all (λ d. option_and_then projection_of (as_table d)) (map view values.now))) }
{
    let mut found = Vec::new(alloc);
    for (at, value) in values.iter().enumerate() {
        let entry = projection(alloc, at, value)?;
        found.push(entry)?;
    }
    Ok(found)
}

fn columns_at(alloc: Global, table: &Table) -> Result<Vec<ColumnEntry<'_>>, Refusal<'_>>
    ensures read { IfOk result (λ v. tables_at column_of (codes "column") (table_view table.now) ≡ Some v.items) }
    ensures unread { IfErr result (IsRefusedUnlessMemory 2 (tables_at column_of (codes "column") (table_view table.now))) }
{
    columns(
        alloc,
        array_at(Place::Catalog, table, "column", "is not an array")?,
    )
}

fn projections_at(alloc: Global, table: &Table) -> Result<Vec<ProjectionEntry<'_>>, Refusal<'_>>
    ensures read { IfOk result (λ v. tables_at projection_of (codes "projection") (table_view table.now) ≡ Some v.items) }
    ensures unread { IfErr result (IsRefusedUnlessMemory 2 (tables_at projection_of (codes "projection") (table_view table.now))) }
{
    projections(
        alloc,
        array_at(Place::Catalog, table, "projection", "is not an array")?,
    )
}

/// Reads each key at its type.
pub fn read_document(alloc: Global, table: &Table) -> Result<Document<'_>, Refusal<'_>>
    ensures read { IfOk result (λ d. document_of (table_view table.now) ≡ Some d) }
    ensures unread { IfErr result (IsRefusedUnlessMemory 2 (document_of (table_view table.now))) }
{
    let head = head_of(table)?;
    let columns = columns_at(alloc, table)?;
    match projections_at(alloc, table) {
        Ok(projections) => Ok(Document {
            table: head.table,
            key: head.key,
            sites: head.sites,
            safety: head.safety,
            columns,
            projections,
        }),
        Err(refusal) => Err(refusal),
    }
}
