//! Builds a catalog from a document that keeps the rules.
ghost use Rattle.std.specs.Prelude.{◌≡◌, ◌≤◌, true, None, length, map, IfOk};
ghost use Rattle.std.specs.List.{list_all};
ghost use Rattle.cs_catalog.specs.Tree.{texts};
ghost use Rattle.cs_schema.specs.Rules.{is_name, is_among, has_cuts, least_broken, document_rules};
ghost use Rattle.cs_schema.specs.Named.{byte_of, safety_of, kind_named, code_of, column_data, column_place, places, projection_data, catalog_of};

use crate::cuts::cut_cells;
use crate::document::{ColumnEntry, Document, ProjectionEntry};
use crate::fault::Refusal;
use crate::keys::is_from_to;
use crate::lookups::{is_among, is_int_column, leading};
use arrayvec::ArrayString;
use cs_schema::limits::NAME_BYTES;
use cs_schema::{Catalog, Code, Column, Kind, Projection, Safety};
use std::alloc::{AllocError, Global};

fn byte_of(value: i64) -> u8
    ensures { result ≡ byte_of value }
{
    match u8::try_from(value) {
        Ok(byte) => byte,
        Err(_) => 0,
    }
}

fn kind_named(kind: &str) -> Kind
    ensures { result ≡ kind_named kind.now }
{
    if kind == "int" { Kind::Int } else { Kind::Text }
}

fn safety_of(safety: &str) -> Safety
    ensures { result ≡ safety_of safety.now }
{
    if safety == "rows" {
        Safety::Rows
    } else {
        Safety::Whole
    }
}

fn code_of(number: i64) -> Code
    ensures { result ≡ code_of number }
{
    if is_from_to(1, 1, number) {
        Code::Runs
    } else if is_from_to(2, 2, number) {
        Code::Bitmaps
    } else if is_from_to(3, 3, number) {
        Code::Differences
    } else {
        Code::Plain
    }
}

fn name_of(name: &str) -> ArrayString<{ NAME_BYTES }>
    requires { is_name name.now ≡ true }
    ensures { result.bytes ≡ name.now }
{
    match ArrayString::from(name) {
        Ok(name) => name,
        Err(_) => unreachable!(),
    }
}

fn column_place(columns: &[ColumnEntry], name: &str) -> u8
    requires { length columns.now ≤ 32 }
    ensures { result ≡ column_place columns.now name.now }
{
    for (place, column) in columns.iter().enumerate() {
        if column.name == name {
            return place as u8;
        }
    }
    columns.len() as u8
}

fn column_places(
    alloc: Global,
    columns: &[ColumnEntry],
    names: &[&str],
) -> Result<Vec<u8>, AllocError>
    requires { length columns.now ≤ 32 }
    ensures { IfOk result (λ v. v.items ≡ map (column_place columns.now) (texts names.now)) }
{
    let mut places = Vec::new(alloc);
    for name in names {
        places.push(column_place(columns, name))?;
    }
    Ok(places)
}

fn codes_of(alloc: Global, numbers: &[i64]) -> Result<Vec<Code>, AllocError>
    ensures { IfOk result (λ v. v.items ≡ map code_of numbers.now) }
{
    let mut codes = Vec::new(alloc);
    for number in numbers {
        codes.push(code_of(*number))?;
    }
    Ok(codes)
}

fn bytes_of(alloc: Global, numbers: &[i64]) -> Result<Vec<u8>, AllocError>
    ensures { IfOk result (λ v. v.items ≡ map byte_of numbers.now) }
{
    let mut bytes = Vec::new(alloc);
    for number in numbers {
        bytes.push(byte_of(*number))?;
    }
    Ok(bytes)
}

fn join_places(
    alloc: Global,
    projections: &[ProjectionEntry],
    joins: &[&str],
) -> Result<Vec<u8>, AllocError>
    requires { length projections.now ≤ 8 }
    ensures { IfOk result (λ v. v.items ≡ places (λ q. is_among q.name (texts joins.now)) 0 projections.now) }
{
    let mut places = Vec::new(alloc);
    for (place, projection) in projections.iter().enumerate() {
        if is_among(projection.name, joins) {
            places.push(place as u8)?;
        }
    }
    Ok(places)
}

fn columns_of(alloc: Global, entries: &[ColumnEntry]) -> Result<Vec<Column>, AllocError>
    requires { list_all (λ c. is_name c.name) entries.now ≡ true }
    ensures { IfOk result (λ v. v.items ≡ map column_data entries.now) }
{
    let mut columns = Vec::new(alloc);
    for entry in entries {
        columns.push(Column {
            name: name_of(entry.name),
            kind: kind_named(entry.kind),
        })?;
    }
    Ok(columns)
}

fn projection_of(
    alloc: Global,
    document: &Document,
    entry: &ProjectionEntry,
) -> Result<Projection, AllocError>
    requires columns { length document.now.columns ≤ 32 }
    requires projections { length document.now.projections ≤ 8 }
    requires name { is_name entry.now.name ≡ true }
    requires cuts { has_cuts document.now.columns entry.now ≡ true }
    ensures { IfOk result (λ p. p ≡ projection_data document.now entry.now) }
{
    let table = document.columns.as_slice();
    let columns = column_places(alloc, table, &entry.columns)?;
    let codes = codes_of(alloc, &entry.code_numbers)?;
    let sort = column_places(alloc, table, &entry.sort)?;
    let sites = bytes_of(alloc, &entry.site_numbers)?;
    let joins = join_places(alloc, &document.projections, &entry.joins)?;
    match cut_cells(alloc, is_int_column(table, leading(entry)), entry.cuts) {
        Ok(cuts) => Ok(Projection {
            name: name_of(entry.name),
            columns,
            codes,
            sort,
            cuts,
            sites,
            joins,
        }),
        Err(Refusal::Memory) => Err(AllocError),
        Err(Refusal::Rule(..)) => unreachable!(),
    }
}

fn projections_of(alloc: Global, document: &Document) -> Result<Vec<Projection>, AllocError>
    requires columns { length document.now.columns ≤ 32 }
    requires projections { length document.now.projections ≤ 8 }
    requires names { list_all (λ p. is_name p.name) document.now.projections ≡ true }
    requires cuts { list_all (has_cuts document.now.columns) document.now.projections ≡ true }
    ensures { IfOk result (λ v. v.items ≡ map (projection_data document.now) document.now.projections) }
{
    let mut projections = Vec::new(alloc);
    let entries = document.projections.as_slice();
    for entry in entries {
        projections.push(projection_of(alloc, document, entry)?)?;
    }
    Ok(projections)
}

/// The catalog that a document describes.
pub fn catalog_of(alloc: Global, document: &Document) -> Result<Catalog, AllocError>
    requires { least_broken 3 document_rules document.now ≡ None }
    ensures { IfOk result (λ c. c ≡ catalog_of document.now) }
{
    let columns = columns_of(alloc, &document.columns)?;
    let projections = projections_of(alloc, document)?;
    Ok(Catalog {
        table: name_of(document.table),
        key: column_place(&document.columns, document.key),
        sites: byte_of(document.sites),
        safety: safety_of(document.safety),
        columns,
        projections,
    })
}
