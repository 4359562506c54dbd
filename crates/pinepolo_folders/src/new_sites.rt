//! The folders that the sites of a new store get.
use crate::distinct::{identity, one_folder, owner_of};
use crate::folders::Folders;
use crate::listing::names_in;
use crate::replacing::LOST_AND_FOUND;
use crate::sites::{named_sites, placed};
use cs_file_system::{FileSystem, StoreFiles, SystemFiles, new_folder_beside, open_regular};
use cs_folders::{
    BEGUN, LeftMark, Way, partial_path, read_catalog_file, unless_missing, way_of_mark,
};
use cs_sites::SiteFolder;
use cs_store::StoreFault;
use pinepolo_args::{NewFolders, Verb};
use pinepolo_places::{Failure, SitesError, VerbError};
use std::alloc::Global;
use std::io::ErrorKind;
use std::rt::Files;
use std::{fs, io};

/// How the names of files end that a run may have left which was stopped.
const ENDS: &[&str] = &[".partial", ".seg", ".del", ".jix"];

/// Where a verb makes a store.
#[derive(Clone, Copy)]
struct Making<'a> {
    catalog: &'a str,
    store: &'a str,
    /// Whether what a run left there that was stopped is replaced.
    replaces: bool,
}

/// Where the verb makes a store, if it makes one.
fn making_of<'a>(verb: &Verb<'a>) -> Option<Making<'a>> {
    match verb {
        Verb::Load(args) => Some(Making {
            catalog: args.catalog,
            store: args.store,
            replaces: args.replaces,
        }),
        Verb::Relayout(args) => Some(Making {
            catalog: args.catalog,
            store: args.new,
            replaces: args.replaces,
        }),
        _ => None,
    }
}

/// Whether a file of this name may be left from a run that was stopped.
fn is_left(name: &str) -> bool {
    for end in ENDS.iter() {
        if name.ends_with(*end) {
            return true;
        }
    }
    false
}

/// Whether a name is that of a folder into which a run moved what it was to remove.
fn is_moved_away(name: &str) -> bool {
    match name.strip_prefix(BEGUN) {
        Some(number) => number.starts_with('.'),
        None => false,
    }
}

/// What stands in a folder with these names: nothing, what a run left there that was stopped, or something else.
fn way_among(names: &[String]) -> Way {
    let mut way = Way::Free;
    for name in names {
        match name.as_str() {
            LOST_AND_FOUND => {}
            BEGUN => way = Way::Begun,
            name if is_moved_away(name) => way = Way::Begun,
            name if is_left(name) => {
                if way == Way::Free {
                    way = Way::Taken;
                }
            }
            _ => return Way::Taken,
        }
    }
    way
}

/// Whether the run that began a site's folder is at work, or was stopped.
fn way_of_begun<R: StoreFiles>(alloc: Global, rt: &R, folder: &str) -> io::Result<Way> {
    let mark = format!(in alloc; "{folder}/{BEGUN}")?;
    match unless_missing(open_regular(rt, mark.as_str()))? {
        Some(mark) => way_of_mark(&mark),
        None => Ok(Way::Begun),
    }
}

/// What stands where a site of a new store is to have its folder; a fault if a folder cannot be listed.
fn way_to_folder<R: StoreFiles + Alloc + Clone + Drop>(
    alloc: Global,
    rt: &R,
    folder: &str,
) -> Result<Way, StoreFault> {
    match fs::symlink_metadata(rt, folder) {
        Err(e) if e.kind() == ErrorKind::NotFound => return Ok(Way::Free),
        Ok(found) if !found.is_dir() && !found.is_symlink() => return Ok(Way::Taken),
        _ => {}
    }
    let names = names_in(alloc, rt, folder)?;
    match way_among(names.as_slice()) {
        Way::Begun => match way_of_begun(alloc, rt, folder) {
            Ok(way) => Ok(way),
            Err(_) => Err(StoreFault::Device),
        },
        way => Ok(way),
    }
}

/// Moves what a run left in a folder that was stopped into a new folder there, its mark last, and removes that.
fn remove_left<R: StoreFiles + Alloc + Clone + Drop>(
    alloc: Global,
    rt: &R,
    folder: &str,
) -> io::Result<()> {
    let begun = format!(in alloc; "{folder}/{BEGUN}")?;
    let mark = unless_missing(LeftMark::lock(rt, begun.as_str()))?;
    let files = &mut SystemFiles(rt);
    let own = new_folder_beside(files, alloc, begun.as_str())?;
    for name in names_in(alloc, rt, folder).map_err(listing_error)? {
        let name = name.as_str();
        let from = format!(in alloc; "{folder}/{name}")?;
        if name == LOST_AND_FOUND || name == BEGUN || from.as_str() == own.as_str() {
            continue;
        }
        let to = format!(in alloc; "{own}/{name}")?;
        files.move_left(from.as_str(), to.as_str())?;
    }
    if mark.is_some() {
        let to = format!(in alloc; "{own}/{BEGUN}")?;
        files.move_left(begun.as_str(), to.as_str())?;
    }
    files.remove_tree(alloc, own.as_str())
}

/// The error of a folder that could not be listed.
fn listing_error(fault: StoreFault) -> io::Error {
    io::Error::from(match fault {
        StoreFault::Memory => ErrorKind::OutOfMemory,
        StoreFault::Device => ErrorKind::Other,
    })
}

/// Makes room for the files of a site in its folder, in which nothing may stand but, if `replaces`, what a run left that was
/// stopped.
pub fn clear_folder<R: StoreFiles + Alloc + Clone + Drop>(
    alloc: Global,
    rt: &R,
    folder: &str,
    replaces: bool,
) -> Result<(), StoreFault> {
    match way_to_folder(alloc, rt, folder)? {
        Way::Free => Ok(()),
        Way::Begun if replaces => match remove_left(alloc, rt, folder) {
            Ok(()) => Ok(()),
            Err(e) if e.kind() == ErrorKind::OutOfMemory => Err(StoreFault::Memory),
            Err(_) => Err(StoreFault::Device),
        },
        _ => Err(StoreFault::Device),
    }
}

/// The error for a folder that a site of a new store can't have, if it is one.
fn not_free<R: StoreFiles + Alloc + Clone + Drop>(
    alloc: Global,
    rt: &R,
    folder: &str,
    replaces: bool,
) -> Option<VerbError> {
    let way = way_to_folder(alloc, rt, folder);
    let Ok(path) = String::from_str(alloc, folder) else {
        return Some(VerbError::OutOfMemory);
    };
    match way {
        Ok(Way::Free) if identity(rt, folder).is_some() => None,
        Ok(Way::Begun) if replaces => None,
        Ok(Way::Begun) => Some(VerbError::Sites(SitesError::Begun(path))),
        Ok(Way::Busy) => Some(VerbError::Sites(SitesError::Busy(path))),
        Ok(_) => Some(VerbError::Sites(SitesError::NotFree(path))),
        Err(StoreFault::Device) => Some(VerbError::of_path(alloc, Failure::ListSite, path)),
        Err(StoreFault::Memory) => Some(VerbError::OutOfMemory),
    }
}

/// The error for a site that has the folder of the new store, or the one that gets its name, if there is such a site.
fn store_folder<R: Files>(
    alloc: Global,
    rt: &R,
    file: &str,
    sites: &[SiteFolder],
    store: &str,
) -> Option<VerbError> {
    let Ok(partial) = partial_path(alloc, store) else {
        return Some(VerbError::OutOfMemory);
    };
    for path in [store, partial.as_str()] {
        let Some(wanted) = identity(rt, path) else {
            continue;
        };
        if let Some(site) = owner_of(rt, sites, wanted) {
            return match (String::from_str(alloc, file), String::from_str(alloc, path)) {
                (Ok(file), Ok(path)) => Some(VerbError::Sites(SitesError::StoreFolder(
                    file, site, path,
                ))),
                _ => Some(VerbError::OutOfMemory),
            };
        }
    }
    None
}

/// The paths of the folders that a SITES file names for the sites of a new store, in the order of their numbers. Nothing is
/// changed. None are found if there is no catalog, which whoever asks for it is told.
fn find_new_sites<R: StoreFiles + Alloc + Copy + Drop>(
    alloc: Global,
    rt: &R,
    file: &str,
    making: &Making<'_>,
) -> Result<Vec<String>, VerbError> {
    let (sites, _adoption) = named_sites(alloc, rt, file, &NewFolders::none(), false)?;
    let sites = sites.as_slice();
    if let Some(error) = one_folder(alloc, rt, file, sites) {
        return Err(error);
    }
    if let Some(error) = store_folder(alloc, rt, file, sites, making.store) {
        return Err(error);
    }
    let folders = match read_catalog_file(alloc, rt, making.catalog) {
        Ok(Some(bytes)) => placed(alloc, file, sites, bytes.as_slice())?,
        Err(StoreFault::Memory) => return Err(VerbError::OutOfMemory),
        _ => Vec::new(alloc),
    };
    for folder in &folders {
        if let Some(error) = not_free(alloc, rt, folder.as_str(), making.replaces) {
            return Err(error);
        }
    }
    Ok(folders)
}

impl<R: StoreFiles + Alloc + Copy + Drop> Folders<R> {
    /// From now on each site of a store that this verb makes gets the folder that a SITES file names for it.
    pub(crate) fn use_new_sites(&mut self, file: &str, verb: &Verb<'_>) -> Result<(), VerbError> {
        let Some(making) = making_of(verb) else {
            return Ok(());
        };
        self.new_sites = Some(find_new_sites(self.alloc, &self.rt, file, &making)?);
        Ok(())
    }
}
