//! Small stores for the program.
use cs_catalog::read_catalog;
use cs_commands::sample;
use cs_delta::write_empty_delta;
use cs_schema::FileName;
use cs_schema::samples::{SPLIT_COLUMNS, THREE_PROJECTIONS};
use cs_store::FileSet;
use std::alloc::Global;
use std::test::Fail;
use test_support::catalogs::{BY_ROWS, Edit, edited};
use test_support::samples::{JOINED_PARTS, ORDER_PARTS};
use test_support::stores::{Parts, put_parts};

/// A catalog, and all files of a store.
#[derive(Drop)]
pub struct Stored {
    pub catalog: Vec<u8>,
    pub files: FileSet,
}

/// The store of these parts.
fn whole(alloc: Global, text: &str, parts: &Parts) -> Result<Stored, Fail> {
    let Ok(catalog) = read_catalog(alloc, text.as_bytes()) else {
        return Err(Fail::from("the catalog is not read"));
    };
    let mut files = FileSet::new(alloc)?;
    put_parts(alloc, &mut files, &catalog, parts)?;
    Ok(Stored {
        catalog: Vec::from_slice(alloc, text.as_bytes())?,
        files,
    })
}

/// Two projections that join to each other, and a third that has every column, on three sites.
pub fn joined(alloc: Global) -> Result<Stored, Fail> {
    whole(alloc, SPLIT_COLUMNS, &JOINED_PARTS)
}

/// Three projections of two segments each, on six sites.
pub fn three_projections(alloc: Global) -> Result<Stored, Fail> {
    whole(alloc, THREE_PROJECTIONS, &ORDER_PARTS)
}

/// The store of `three_projections`, safe by rows.
pub fn three_projections_by_rows(alloc: Global) -> Result<Stored, Fail> {
    let mut stored = three_projections(alloc)?;
    stored.catalog = catalog_of(alloc, THREE_PROJECTIONS, BY_ROWS)?;
    Ok(stored)
}

/// The sample's store, whole.
pub fn sample_store(alloc: Global) -> Result<Stored, Fail> {
    let mut files = sample::survivors(alloc)?;
    let columns = [[1, 2, 3, 4], [30, 10, 20, 10]];
    let segment = sample::segment(alloc, 0, columns)?;
    files.put(FileName::Seg { p: 0, s: 0 }, segment)?;
    let delta = write_empty_delta(alloc, 0, 0, 4)?;
    files.put(FileName::Del { p: 0, s: 0 }, delta)?;
    Ok(Stored {
        catalog: Vec::from_slice(alloc, sample::CATALOG.as_bytes())?,
        files,
    })
}

/// The sample's store, with a third site without files.
pub fn with_an_empty_site(alloc: Global) -> Result<Stored, Fail> {
    let mut stored = sample_store(alloc)?;
    stored.catalog = catalog_of(alloc, sample::CATALOG, &[("sites = 2\n", "sites = 3\n")])?;
    Ok(stored)
}

/// The bytes of an edited catalog.
fn catalog_of(alloc: Global, text: &str, edits: &[Edit]) -> Result<Vec<u8>, Fail> {
    let text = edited(alloc, text, edits)?;
    Ok(Vec::from_slice(alloc, text.as_bytes())?)
}
