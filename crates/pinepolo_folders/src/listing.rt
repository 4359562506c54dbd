//! The names in folders of the system.
use crate::sites::SiteFolders;
use cs_store::StoreFault;
use std::alloc::Global;
use std::rt::Files;
use std::{fs, io};

/// What is listed for a name that is not UTF-8.
const NO_TEXT: &str = "a name that is not UTF-8";

/// How a name came that was asked for next.
fn fault_of(error: &io::Error) -> StoreFault {
    if error.kind() == io::ErrorKind::OutOfMemory {
        StoreFault::Memory
    } else {
        StoreFault::Device
    }
}

/// Adds a name.
fn keep(alloc: Global, names: &mut Vec<String>, name: &str) -> Result<(), StoreFault> {
    match String::from_str(alloc, name) {
        Ok(name) => match names.push(name) {
            Ok(()) => Ok(()),
            Err(_) => Err(StoreFault::Memory),
        },
        Err(_) => Err(StoreFault::Memory),
    }
}

/// The names of what stands in a folder, ascending.
pub fn names_in<R: Files + Alloc + Clone + Drop>(
    alloc: Global,
    rt: &R,
    path: &str,
) -> Result<Vec<String>, StoreFault> {
    let folder = match fs::read_dir(rt, path) {
        Ok(folder) => folder,
        Err(error) => return Err(fault_of(&error)),
    };
    let mut names = Vec::new(alloc);
    for entry in folder {
        let kept = match entry {
            Ok(entry) => keep(alloc, &mut names, entry.file_name()),
            Err(error) if error.kind() == io::ErrorKind::InvalidFilename => {
                keep(alloc, &mut names, NO_TEXT)
            }
            Err(error) => Err(fault_of(&error)),
        };
        if let Err(fault) = kept {
            return Err(fault);
        }
    }
    names.sort_unstable();
    Ok(names)
}

/// Adds the names of what stands in a folder.
fn add_names<R: Files + Alloc + Clone + Drop>(
    alloc: Global,
    rt: &R,
    path: &str,
    all: &mut Vec<String>,
) -> Result<(), StoreFault> {
    let names = match names_in(alloc, rt, path) {
        Ok(names) => names,
        Err(fault) => return Err(fault),
    };
    for name in names {
        if all.push(name).is_err() {
            return Err(StoreFault::Memory);
        }
    }
    Ok(())
}

/// The names of what stands in the folder of a store, and in those of its sites that are not away, ascending and each once.
/// If sites have folders of their own, the store needs none.
pub fn names_in_all<R: Files + Alloc + Clone + Drop>(
    alloc: Global,
    rt: &R,
    path: &str,
    sites: &Option<SiteFolders>,
) -> Result<Vec<String>, StoreFault> {
    let Some(sites) = sites else {
        return names_in(alloc, rt, path);
    };
    let mut all = Vec::new(alloc);
    if let Err(StoreFault::Memory) = add_names(alloc, rt, path, &mut all) {
        return Err(StoreFault::Memory);
    }
    for site in 1..17u8 {
        if let Some(folder) = sites.folder(site) {
            if let Err(fault) = add_names(alloc, rt, folder, &mut all) {
                return Err(fault);
            }
        }
    }
    all.sort_unstable();
    all.dedup();
    Ok(all)
}
