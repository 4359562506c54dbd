//! The copies of a store's catalog.
use cs_folders::{FileLimits, StoreFolder, read_catalog_file};
use cs_manifest::digest_of;
use cs_schema::Loss;
use cs_sites::SiteFolder;
use cs_store::StoreFault;
use pinepolo_places::{CatalogCopy, SitesError, VerbError};
use std::alloc::{AllocError, Global};
use std::rt::Files;

/// A copy of the catalog that was read.
#[derive(Drop)]
pub struct ReadCopy {
    /// The path of the store or of the site's folder that it belongs to.
    pub path: String,
    pub bytes: Vec<u8>,
}

/// Adds a copy of the catalog, if one was read.
fn keep(
    alloc: Global,
    copies: &mut Vec<ReadCopy>,
    path: &str,
    read: Result<Option<Vec<u8>>, StoreFault>,
) -> Result<bool, AllocError> {
    let bytes = match read {
        Ok(Some(bytes)) => bytes,
        Ok(None) | Err(StoreFault::Device) => return Ok(false),
        Err(StoreFault::Memory) => return Err(AllocError),
    };
    let path = String::from_str(alloc, path)?;
    copies.push(ReadCopy { path, bytes })?;
    Ok(true)
}

/// The copy of the catalog in a site's folder.
fn site_copy<R: Files + Copy>(
    alloc: Global,
    rt: R,
    folder: &str,
) -> Result<Option<Vec<u8>>, StoreFault> {
    match StoreFolder::new(alloc, rt, folder, FileLimits::Fixed) {
        Ok(mut folder) => folder.catalog(),
        Err(_) => Err(StoreFault::Memory),
    }
}

/// The copies of the catalog that can be read: that of the store, and those of the sites; and the sites that have none.
pub fn read_copies<R: Files + Copy>(
    alloc: Global,
    rt: R,
    store: &str,
    sites: &[SiteFolder],
) -> Result<(Vec<ReadCopy>, Loss), AllocError> {
    let mut copies = Vec::new(alloc);
    let mut away = Loss::none();
    let read = read_catalog_file(alloc, &rt, store);
    let _has_copy = keep(alloc, &mut copies, store, read)?;
    for site in sites {
        let folder = site.folder.as_str();
        let read = site_copy(alloc, rt, folder);
        if !keep(alloc, &mut copies, folder, read)? && (1..=16).contains(&site.number) {
            away = away.with(site.number);
        }
    }
    Ok((copies, away))
}

/// A copy of the catalog by its digest.
fn digested(alloc: Global, copy: &ReadCopy) -> Option<CatalogCopy> {
    let path = String::from_str(alloc, copy.path.as_str()).ok()?;
    Some(CatalogCopy {
        path,
        digest: digest_of(copy.bytes.as_slice()),
    })
}

/// The error for copies of the catalog that differ, if two do.
pub fn differing(alloc: Global, copies: &[ReadCopy]) -> Option<VerbError> {
    let first = copies.first()?;
    for copy in copies {
        if copy.bytes.as_slice() != first.bytes.as_slice() {
            return match (digested(alloc, first), digested(alloc, copy)) {
                (Some(one), Some(other)) => Some(VerbError::Sites(SitesError::CatalogsDiffer(
                    one, other,
                ))),
                _ => Some(VerbError::OutOfMemory),
            };
        }
    }
    None
}
