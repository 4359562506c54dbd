//! The folders of a store's sites.
ghost use Rattle.std.specs.Prelude.{◌≡◌, ◌≤◌, IfSome};
ghost use Rattle.cs_schema.specs.Lists.{member};
ghost use Rattle.pinepolo_folders.specs.Folders.{IsSiteFolder};

use crate::copies::{differing, read_copies};
use crate::distinct::one_folder;
use crate::folders::Folders;
use crate::replacing::{Adoption, with_new_folders};
use cs_catalog::{CatalogFault, read_catalog};
use cs_folders::{CATALOG_LIMIT, FileLimits, StoreFolder, read_file};
use cs_schema::Loss;
use cs_sites::{SiteFolder, SitesFault, folder_beside, folders_of, read_sites};
use cs_store::StoreFault;
use pinepolo_args::NewFolders;
use pinepolo_places::{AwaySite, Failure, SitesError, VerbError};
use std::alloc::{AllocError, Global};
use std::rt::Files;

/// The folders of a store's sites.
#[derive(Drop)]
pub struct SiteFolders {
    /// The path of the store.
    store: String,
    /// The paths of the sites' folders, in the order of their numbers from 1.
    folders: Vec<String>,
    /// The sites whose folders are away.
    away: Loss,
    /// The bytes of the catalog, if a copy of it was read.
    catalog: Option<Vec<u8>>,
    /// What is done once sites are restored into new folders, if some are to be.
    adoption: Option<Adoption>,
}

/// Whether a loss has a site.
fn has(loss: Loss, site: u8) -> bool
    ensures { 1 ≤ site → site ≤ 16 → result ≡ member loss site }
{
    (1..=16).contains(&site) && loss.has(site)
}

/// The error for a SITES file that is refused.
fn refused(alloc: Global, file: &str, fault: SitesFault) -> VerbError {
    if fault == SitesFault::Memory {
        return VerbError::OutOfMemory;
    }
    match String::from_str(alloc, file) {
        Ok(file) => VerbError::Sites(SitesError::Refused(file, fault)),
        Err(_) => VerbError::OutOfMemory,
    }
}

/// The bytes of a SITES file.
fn read_bytes<R: Files>(alloc: Global, rt: &R, file: &str) -> Result<Vec<u8>, VerbError> {
    match read_file(alloc, rt, file, CATALOG_LIMIT) {
        Ok(Some(bytes)) => Ok(bytes),
        Err(StoreFault::Memory) => Err(VerbError::OutOfMemory),
        Ok(None) | Err(StoreFault::Device) => match String::from_str(alloc, file) {
            Ok(file) => Err(VerbError::of_path(alloc, Failure::ReadSites, file)),
            Err(_) => Err(VerbError::OutOfMemory),
        },
    }
}

/// The sites that a SITES file names, each with the path of its folder from where the program runs; and what is done once
/// those with new folders are restored.
pub fn named_sites<R: Files + Alloc + Clone + Drop>(
    alloc: Global,
    rt: &R,
    file: &str,
    to: &NewFolders<'_>,
    resumes: bool,
) -> Result<(Vec<SiteFolder>, Option<Adoption>), VerbError> {
    let bytes = read_bytes(alloc, rt, file)?;
    let old = match read_sites(alloc, bytes.as_slice()) {
        Ok(named) => named,
        Err(fault) => return Err(refused(alloc, file, fault)),
    };
    let new = with_new_folders(alloc, rt, old.as_slice(), to, resumes)?;
    let text = std::str::from_utf8(bytes.as_slice()).unwrap_or("");
    let adoption = Adoption::new(alloc, file, text, old.as_slice(), new.as_slice(), to)?;
    match beside(alloc, file, new.as_slice()) {
        Ok(sites) => Ok((sites, adoption)),
        Err(_) => Err(VerbError::OutOfMemory),
    }
}

/// The sites with the paths of their folders, of which relative ones begin at the folder of the file.
fn beside(alloc: Global, file: &str, named: &[SiteFolder]) -> Result<Vec<SiteFolder>, AllocError> {
    let mut sites = Vec::new(alloc);
    for site in named {
        let folder = folder_beside(alloc, file, site.folder.as_str())?;
        let number = site.number;
        sites.push(SiteFolder { number, folder })?;
    }
    Ok(sites)
}

/// The folders of the sites of the catalog with these bytes, in the order of their numbers; none if the bytes are no
/// catalog, which whoever asks for it is told.
pub fn placed(
    alloc: Global,
    file: &str,
    sites: &[SiteFolder],
    catalog: &[u8],
) -> Result<Vec<String>, VerbError> {
    let catalog = match read_catalog(alloc, catalog) {
        Ok(catalog) => catalog,
        Err(CatalogFault::Memory) => return Err(VerbError::OutOfMemory),
        Err(_) => return Ok(Vec::new(alloc)),
    };
    let folders = match folders_of(alloc, sites, catalog.sites) {
        Ok(folders) => folders,
        Err(fault) => return Err(refused(alloc, file, fault)),
    };
    match owned(alloc, folders.as_slice()) {
        Ok(folders) => Ok(folders),
        Err(_) => Err(VerbError::OutOfMemory),
    }
}

/// Copies of texts.
fn owned(alloc: Global, texts: &[&str]) -> Result<Vec<String>, AllocError> {
    let mut copies = Vec::new(alloc);
    for text in texts {
        copies.push(String::from_str(alloc, text)?)?;
    }
    Ok(copies)
}

/// Those of the sites that are away which get no new folder.
fn without_new(away: Loss, to: &NewFolders<'_>) -> Loss {
    let mut left = Loss::none();
    for site in 1..17u8 {
        if has(away, site) && to.folder(site).is_none() {
            left = left.with(site);
        }
    }
    left
}

/// Finds the folders that a SITES file names for the sites of the store at a path, or those that take their places, and
/// reads their copies of the catalog.
pub fn find_sites<R: Files + Alloc + Copy + Drop>(
    alloc: Global,
    rt: R,
    file: &str,
    store: &str,
    to: &NewFolders<'_>,
    resumes: bool,
) -> Result<SiteFolders, VerbError> {
    let (sites, adoption) = match named_sites(alloc, &rt, file, to, resumes) {
        Ok(found) => found,
        Err(error) => return Err(error),
    };
    if let Some(error) = one_folder(alloc, &rt, file, sites.as_slice()) {
        return Err(error);
    }
    let Ok((mut copies, away)) = read_copies(alloc, rt, store, sites.as_slice()) else {
        return Err(VerbError::OutOfMemory);
    };
    let away = without_new(away, to);
    if let Some(error) = differing(alloc, copies.as_slice()) {
        return Err(error);
    }
    let Ok(store) = String::from_str(alloc, store) else {
        return Err(VerbError::OutOfMemory);
    };
    let Some(copy) = copies.pop() else {
        return Ok(SiteFolders {
            store,
            folders: Vec::new(alloc),
            away,
            catalog: None,
            adoption,
        });
    };
    match placed(alloc, file, sites.as_slice(), copy.bytes.as_slice()) {
        Ok(folders) => Ok(SiteFolders {
            store,
            folders,
            away,
            catalog: Some(copy.bytes),
            adoption,
        }),
        Err(error) => Err(error),
    }
}

impl SiteFolders {
    /// The bytes of the catalog, if a copy of it was read.
    pub fn catalog(&self) -> Option<&[u8]> {
        match &self.catalog {
            Some(bytes) => Some(bytes.as_slice()),
            None => None,
        }
    }

    /// What is done once sites are restored into new folders, if some are to be.
    pub fn adoption(&self) -> Option<&Adoption> {
        match &self.adoption {
            Some(adoption) => Some(adoption),
            None => None,
        }
    }

    /// The folder of a site, if it is not away.
    pub fn folder(&self, site: u8) -> Option<&str>
        ensures { IfSome result (λ folder. IsSiteFolder self.now site folder.now) }
    {
        if has(self.away, site) {
            return None;
        }
        match self.folders.get(usize::from(site).saturating_sub(1)) {
            Some(folder) => Some(folder.as_str()),
            None => None,
        }
    }

    /// The sites that are away, by their numbers.
    pub fn away(&self, alloc: Global) -> Result<Vec<AwaySite>, AllocError> {
        let mut found = Vec::new(alloc);
        let mut site = 0u8;
        for folder in &self.folders {
            site = site.saturating_add(1);
            if has(self.away, site) {
                let folder = String::from_str(alloc, folder.as_str())?;
                found.push(AwaySite { site, folder })?;
            }
        }
        Ok(found)
    }
}

impl<R: Files + Alloc + Copy + Drop> Folders<R> {
    /// From now on each site of the store at this path has the folder that a SITES file names, or the one that takes its
    /// place, and the store the catalog of which they have copies. Gives the sites whose folders are away: of these no file
    /// can be read.
    pub fn use_sites(
        &mut self,
        file: &str,
        store: &str,
        to: &NewFolders<'_>,
        resumes: bool,
    ) -> Result<Vec<AwaySite>, VerbError> {
        let sites = match find_sites(self.alloc, self.rt, file, store, to, resumes) {
            Ok(sites) => sites,
            Err(error) => return Err(error),
        };
        let Ok(away) = sites.away(self.alloc) else {
            return Err(VerbError::OutOfMemory);
        };
        self.sites = Some(sites);
        Ok(away)
    }
}

impl<R: Files + Copy> Folders<R> {
    /// The bytes of the catalog of which the sites of the store at this path have copies, if there is one.
    pub(crate) fn kept_catalog(&self, path: &str) -> Option<Result<Vec<u8>, StoreFault>> {
        let sites = match &self.sites {
            Some(sites) if sites.store.as_str() == path => sites,
            _ => return None,
        };
        match sites.catalog() {
            Some(bytes) => match Vec::from_slice(self.alloc, bytes) {
                Ok(copy) => Some(Ok(copy)),
                Err(_) => Some(Err(StoreFault::Memory)),
            },
            None => None,
        }
    }

    /// The files of a site of the store at this path, if the site is not away.
    pub(crate) fn source_at(
        &self,
        path: &str,
        site: u8,
        limits: FileLimits,
    ) -> Result<Option<StoreFolder<R>>, AllocError> {
        let folder = match &self.sites {
            Some(sites) => sites.folder(site),
            None => Some(path),
        };
        match folder {
            Some(folder) => match StoreFolder::new(self.alloc, self.rt, folder, limits) {
                Ok(source) => Ok(Some(source)),
                Err(refused) => Err(refused),
            },
            None => Ok(None),
        }
    }
}
