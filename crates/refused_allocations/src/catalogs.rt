//! Reading a catalog.
use crate::attempt::{Answer, Report, allocate};
use anyhow::{Result, anyhow};
use cs_catalog::{CatalogFault, read_catalog};
use cs_schema::samples::CITIES;
use cs_schema::{Catalog, Projection};
use std::alloc::Global;

/// The catalog that a text has to be.
pub fn catalog_of(alloc: Global, text: &str) -> Result<Catalog> {
    match read_catalog(alloc, text.as_bytes()) {
        Ok(catalog) => Ok(catalog),
        Err(fault) => Err(anyhow!("{fault}")),
    }
}

/// Reads the catalog of cities.
pub fn read(alloc: Global, before: u64) -> Result<Report> {
    let wanted = catalog_of(alloc, CITIES)?;
    let granted = allocate(alloc, before);
    if granted < before {
        return Ok(Report::Before(granted));
    }
    let answer = match read_catalog(alloc, CITIES.as_bytes()) {
        Ok(catalog) => Answer::of(is_same(&catalog, &wanted)),
        Err(CatalogFault::Memory) => Answer::Memory,
        Err(_) => Answer::Wrong,
    };
    Ok(Report::made(alloc, answer))
}

/// Whether two catalogs have the same names, numbers and kinds.
fn is_same(one: &Catalog, other: &Catalog) -> bool {
    if one.key != other.key || one.sites != other.sites || one.safety != other.safety {
        return false;
    }
    if one.columns.len() != other.columns.len()
        || one.projections.len() != other.projections.len()
    {
        return false;
    }
    for (a, b) in one.columns.iter().zip(other.columns.iter()) {
        if a.name.as_str() != b.name.as_str() || a.kind != b.kind {
            return false;
        }
    }
    for (a, b) in one.projections.iter().zip(other.projections.iter()) {
        if !is_same_projection(a, b) {
            return false;
        }
    }
    one.table.as_str() == other.table.as_str()
}

/// Whether two projections have the same name, columns, codes, sort columns, sites and joins, and as many cuts.
fn is_same_projection(a: &Projection, b: &Projection) -> bool {
    a.name.as_str() == b.name.as_str()
        && a.columns.as_slice() == b.columns.as_slice()
        && a.codes.as_slice() == b.codes.as_slice()
        && a.sort.as_slice() == b.sort.as_slice()
        && a.sites.as_slice() == b.sites.as_slice()
        && a.joins.as_slice() == b.joins.as_slice()
        && a.cuts.len() == b.cuts.len()
}
