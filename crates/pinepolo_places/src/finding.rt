//! Catalogs and stores by path.
ghost use Rattle.std.specs.Prelude.{◌≡◌, IfOk, OnErr};
ghost use Rattle.cs_catalog.specs.Reading.{IsCatalogOf};
ghost use Rattle.pinepolo_places.specs.Finding.{FindsCatalog, FindsStore, FindsStoreText, LooksUp};

use crate::causes::Failure;
use crate::error::VerbError;
use crate::places::Places;
use cs_catalog::{CatalogFault, explain, read_catalog};
use cs_schema::Catalog;
use cs_store::StoreFault;
use std::alloc::Global;

/// The error for a catalog that could not be read.
fn read_error(alloc: Global, fault: StoreFault, path: &str) -> VerbError {
    VerbError::of_device(alloc, fault, Failure::ReadCatalog, path)
}

/// The error for the bytes of a catalog that is refused, with what breaks its rule.
fn catalog_error(alloc: Global, bytes: &[u8], fault: CatalogFault, path: &str) -> VerbError {
    if let CatalogFault::Memory = fault {
        return VerbError::OutOfMemory;
    }
    match explain(alloc, bytes) {
        Ok(Some(explanation)) => {
            VerbError::of_catalog(alloc, fault, path, explanation.words.as_str())
        }
        Ok(None) => VerbError::of_catalog(alloc, fault, path, ""),
        Err(_) => VerbError::OutOfMemory,
    }
}

/// The catalog of a file or of a store at this path.
pub fn look_up<P: Places>(alloc: Global, places: &mut P, path: &str) -> Result<Catalog, VerbError>
    ensures ok { IfOk result (λ catalog. FindsCatalog P.reads places.old path.now catalog places.new) }
    ensures err { OnErr result (LooksUp P.reads P.misses places.old path.now places.new) }
{
    let bytes = match places.catalog_or_file(path) {
        Ok(bytes) => bytes,
        Err(fault) => return Err(read_error(alloc, fault, path)),
    };
    match read_catalog(alloc, bytes.as_slice()) {
        Ok(catalog) => Ok(catalog),
        Err(fault) => Err(catalog_error(alloc, bytes.as_slice(), fault, path)),
    }
}

/// The catalog of a file or of a store at this path, with its bytes.
pub fn look_up_text<P: Places>(
    alloc: Global,
    places: &mut P,
    path: &str,
) -> Result<(Catalog, Vec<u8>), VerbError>
    ensures ok { IfOk result (λ found. (P.reads places.old path.now found.1.items places.new) × IsCatalogOf found.1.items found.0) }
    ensures err { OnErr result (LooksUp P.reads P.misses places.old path.now places.new) }
{
    let bytes = match places.catalog_or_file(path) {
        Ok(bytes) => bytes,
        Err(fault) => return Err(read_error(alloc, fault, path)),
    };
    match read_catalog(alloc, bytes.as_slice()) {
        Ok(catalog) => Ok((catalog, bytes)),
        Err(fault) => Err(catalog_error(alloc, bytes.as_slice(), fault, path)),
    }
}

/// The catalog of the store at this path.
fn store_catalog<P: Places>(alloc: Global, places: &mut P, path: &str) -> Result<Catalog, VerbError>
    ensures ok { IfOk result (λ catalog. FindsCatalog P.reads places.old path.now catalog places.new) }
    ensures err { OnErr result (LooksUp P.reads P.misses places.old path.now places.new) }
{
    let bytes = match places.catalog(path) {
        Ok(bytes) => bytes,
        Err(fault) => return Err(read_error(alloc, fault, path)),
    };
    match read_catalog(alloc, bytes.as_slice()) {
        Ok(catalog) => Ok(catalog),
        Err(fault) => Err(catalog_error(alloc, bytes.as_slice(), fault, path)),
    }
}

/// The store at this path, with its catalog. No file of it is read.
pub fn find_store<P: Places>(
    alloc: Global,
    places: &mut P,
    path: &str,
) -> Result<(Catalog, P::Store), VerbError>
    ensures ok { IfOk result (λ found. FindsStore P.reads P.opens places.old path.now found.0 found.1 places.new) }
    ensures err { OnErr result (LooksUp P.reads P.misses places.old path.now places.new) }
{
    let catalog = match store_catalog(alloc, places, path) {
        Ok(catalog) => catalog,
        Err(error) => return Err(error),
    };
    match places.files(path, &catalog) {
        Ok(store) => Ok((catalog, store)),
        Err(_) => Err(VerbError::OutOfMemory),
    }
}

/// The store at this path, with its catalog and that one's bytes. No file of it is read.
pub fn find_store_text<P: Places>(
    alloc: Global,
    places: &mut P,
    path: &str,
) -> Result<(Catalog, Vec<u8>, P::Store), VerbError>
    ensures ok { IfOk result (λ found. FindsStoreText P.reads P.opens places.old path.now found.0 found.1.items found.2 places.new) }
    ensures err { OnErr result (LooksUp P.reads P.misses places.old path.now places.new) }
{
    let bytes = match places.catalog(path) {
        Ok(bytes) => bytes,
        Err(fault) => return Err(read_error(alloc, fault, path)),
    };
    let catalog = match read_catalog(alloc, bytes.as_slice()) {
        Ok(catalog) => catalog,
        Err(fault) => return Err(catalog_error(alloc, bytes.as_slice(), fault, path)),
    };
    match places.files(path, &catalog) {
        Ok(store) => Ok((catalog, bytes, store)),
        Err(_) => Err(VerbError::OutOfMemory),
    }
}
