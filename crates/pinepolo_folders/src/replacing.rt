//! Folders that take the places of those of sites.
use crate::folders::Folders;
use crate::listing::names_in;
use cs_file_system::{FileSystem, StoreFiles, SystemFiles, put_owned};
use cs_folder_work::StoreFolders;
use cs_schema::Loss;
use cs_sites::{SiteFolder, with_folders};
use cs_store::StoreFault;
use pinepolo_args::NewFolders;
use pinepolo_places::{Failure, SitesError, VerbError};
use std::alloc::Global;
use std::io;
use std::io::ErrorKind;
use std::rt::Files;

/// What stands in each new file system of some kinds.
pub const LOST_AND_FOUND: &str = "lost+found";

/// The folder in which a restore keeps what it replaces. It is made there before anything else.
const REPLACED: &str = "replaced";

/// What is done once some sites are restored into new folders.
#[derive(Drop)]
pub struct Adoption {
    /// The path of the SITES file.
    file: String,
    /// Its text with the new folders.
    text: String,
    /// The sites with new folders.
    sites: Loss,
}

/// Whether what stands in a folder is nothing, or what a restore left there that was stopped.
fn is_free(names: &[String], resumes: bool) -> bool {
    let mut is_empty = true;
    for name in names {
        match name.as_str() {
            LOST_AND_FOUND => {}
            REPLACED if resumes => return true,
            _ => is_empty = false,
        }
    }
    is_empty
}

/// A text of its own.
fn owned(alloc: Global, text: &str) -> Result<String, VerbError> {
    match String::from_str(alloc, text) {
        Ok(text) => Ok(text),
        Err(_) => Err(VerbError::OutOfMemory),
    }
}

/// The path of a new folder, from the root. It has to be empty, unless a restore into it is resumed.
fn free_folder<R: Files + Alloc + Clone + Drop>(
    alloc: Global,
    rt: &R,
    folder: &str,
    resumes: bool,
) -> Result<String, VerbError> {
    let names = match names_in(alloc, rt, folder) {
        Ok(names) => names,
        Err(StoreFault::Memory) => return Err(VerbError::OutOfMemory),
        Err(StoreFault::Device) => return Err(VerbError::of_path(
            alloc,
            Failure::ListSite,
            owned(alloc, folder)?,
        )),
    };
    if !is_free(names.as_slice(), resumes) {
        return Err(VerbError::Sites(SitesError::NotEmpty(owned(alloc, folder)?)));
    }
    match rt.canonicalize(alloc, folder) {
        Ok(path) => owned(alloc, path.as_str()),
        Err(_) => Err(VerbError::of_path(alloc, Failure::ListSite, owned(alloc, folder)?)),
    }
}

/// The sites that a SITES file names, of which some have new folders.
pub fn with_new_folders<R: Files + Alloc + Clone + Drop>(
    alloc: Global,
    rt: &R,
    named: &[SiteFolder],
    to: &NewFolders<'_>,
    resumes: bool,
) -> Result<Vec<SiteFolder>, VerbError> {
    let mut sites = Vec::new(alloc);
    for site in named {
        let number = site.number;
        let folder = match to.folder(number) {
            Some(folder) => free_folder(alloc, rt, folder, resumes)?,
            None => owned(alloc, site.folder.as_str())?,
        };
        if sites.push(SiteFolder { number, folder }).is_err() {
            return Err(VerbError::OutOfMemory);
        }
    }
    Ok(sites)
}

/// The sites that get new folders, each of which has to be among these.
fn adopted_sites(sites: &[SiteFolder], to: &NewFolders<'_>) -> Result<Loss, VerbError> {
    let mut adopted = Loss::none();
    for number in 1..17u8 {
        if to.folder(number).is_none() {
            continue;
        }
        if !sites.iter().any(|site| site.number == number) {
            return Err(VerbError::Sites(SitesError::NoSite(number)));
        }
        adopted = adopted.with(number);
    }
    Ok(adopted)
}

impl Adoption {
    /// What is done once the sites with new folders are restored, if there are any: `old` are the sites that the SITES file
    /// names, of which `text` is the text, and `new` those that it is to name.
    pub fn new(
        alloc: Global,
        file: &str,
        text: &str,
        old: &[SiteFolder],
        new: &[SiteFolder],
        to: &NewFolders<'_>,
    ) -> Result<Option<Self>, VerbError> {
        if !to.has_any() {
            return Ok(None);
        }
        let sites = adopted_sites(new, to)?;
        let file = owned(alloc, file)?;
        match with_folders(alloc, text, old, new) {
            Ok(Some(text)) => Ok(Some(Self { file, text, sites })),
            Ok(None) => Err(VerbError::Sites(SitesError::NotRewritable(file))),
            Err(_) => Err(VerbError::OutOfMemory),
        }
    }

    /// Gives the new folders their copies of the catalog, as long as they are there, and then writes the SITES file with them:
    /// whole or not at all.
    fn adopt<R: StoreFiles>(
        &self,
        alloc: Global,
        rt: &R,
        folders: &StoreFolders,
        catalog: &[u8],
    ) -> io::Result<()> {
        for site in 1..17u8 {
            if self.sites.has(site) {
                let number = usize::from(site - 1);
                let folder = folders.reach_other(&mut SystemFiles(rt), number)?;
                put_in(alloc, rt, folder, "catalog.toml", catalog)?;
            }
        }
        let file = rt.canonicalize(alloc, self.file.as_str())?;
        match file.as_str().rsplit_once('/') {
            Some((folder, name)) => put_in(alloc, rt, folder, name, self.text.as_str().as_bytes()),
            None => Err(io::Error::from(ErrorKind::NotFound)),
        }
    }
}

/// Puts a file in place in a folder, and brings its name to the disk.
fn put_in<R: StoreFiles>(
    alloc: Global,
    rt: &R,
    folder: &str,
    name: &str,
    bytes: &[u8],
) -> io::Result<()> {
    let path = format!(in alloc; "{folder}/{name}")?;
    let beside = format!(in alloc; "{path}.partial")?;
    let folder = if folder.is_empty() { "/" } else { folder };
    let files = &mut SystemFiles(rt);
    put_owned(files, folder, beside.as_str(), path.as_str(), bytes)?;
    files.sync_folder(folder)
}

impl<R: StoreFiles> Folders<R> {
    /// From now on the SITES file names the new folders of the sites that were restored into them, if there are any: they are
    /// among these.
    pub(crate) fn adopt(&self, folders: &StoreFolders) -> Result<(), StoreFault> {
        let Some(sites) = &self.sites else {
            return Ok(());
        };
        let (Some(adoption), Some(catalog)) = (sites.adoption(), sites.catalog()) else {
            return Ok(());
        };
        match adoption.adopt(self.alloc, &self.rt, folders, catalog) {
            Ok(()) => Ok(()),
            Err(e) if e.kind() == ErrorKind::OutOfMemory => Err(StoreFault::Memory),
            Err(_) => Err(StoreFault::Device),
        }
    }
}
