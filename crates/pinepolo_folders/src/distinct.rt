//! Whether sites have folders of their own.
use cs_sites::SiteFolder;
use pinepolo_places::{SitesError, VerbError};
use std::alloc::Global;
use std::fs;
use std::os::unix::fs::MetadataExt;
use std::rt::Files;

/// What tells a folder from others on this system, whatever its path: its device, and its number there; if it is not there
/// yet, those of the folder in which it is to be made, and its name.
pub type FolderIdentity<'a> = (u64, u64, &'a str);

/// The path of the folder in which a folder stands, and its name.
fn parted(folder: &str) -> (&str, &str) {
    let folder = folder.trim_end_matches('/');
    match folder.rsplit_once('/') {
        Some(("", name)) => ("/", name),
        Some((parent, name)) => (parent, name),
        None => (".", folder),
    }
}

/// What tells a folder from others; none if neither it nor the folder around it is there.
pub fn identity<'a, R: Files>(rt: &R, folder: &'a str) -> Option<FolderIdentity<'a>> {
    if let Ok(found) = fs::metadata(rt, folder) {
        return Some((found.dev(), found.ino(), ""));
    }
    let (parent, name) = parted(folder);
    match fs::metadata(rt, parent) {
        Ok(found) => Some((found.dev(), found.ino(), name)),
        Err(_) => None,
    }
}

/// The first of these sites that has the folder with this identity.
pub fn owner_of<R: Files>(rt: &R, sites: &[SiteFolder], wanted: FolderIdentity<'_>) -> Option<u8> {
    for site in sites {
        if identity(rt, site.folder.as_str()) == Some(wanted) {
            return Some(site.number);
        }
    }
    None
}

/// The error for two sites that have one folder, if there are two.
pub fn one_folder<R: Files>(
    alloc: Global,
    rt: &R,
    file: &str,
    sites: &[SiteFolder],
) -> Option<VerbError> {
    for (at, site) in sites.iter().enumerate() {
        let folder = site.folder.as_str();
        let Some(found) = identity(rt, folder) else {
            continue;
        };
        if let Some(first) = owner_of(rt, &sites[..at], found) {
            let numbers = (first, site.number);
            return match (
                String::from_str(alloc, file),
                String::from_str(alloc, folder),
            ) {
                (Ok(file), Ok(folder)) => Some(VerbError::Sites(SitesError::OneFolder(
                    file, numbers, folder,
                ))),
                _ => Some(VerbError::OutOfMemory),
            };
        }
    }
    None
}
