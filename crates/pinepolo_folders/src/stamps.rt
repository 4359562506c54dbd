//! What is compared of a store in folders before and after it is read.
use crate::listing::names_in;
use crate::sites::SiteFolders;
use cs_store::StoreFault;
use pinepolo_places::RESTORING;
use std::alloc::{AllocError, Global};
use std::fs;
use std::io::ErrorKind;
use std::os::unix::fs::MetadataExt;
use std::rt::Files;

/// How the names of files end that are compared, with the record of work and the folder of what is kept.
const ENDS: &[&str] = &[
    ".seg",
    ".del",
    ".jix",
    "catalog.toml",
    RESTORING,
    "replaced",
];

/// What changes with a file or a folder: which it is, its length and its last change.
#[derive(Clone, Copy, Debug, PartialEq, Eq)]
struct FileStamp {
    device: u64,
    number: u64,
    length: u64,
    changed: (i64, i64),
}

/// A file or a folder that is gone since its folder was listed.
const GONE: FileStamp = FileStamp {
    device: 0,
    number: 0,
    length: 0,
    changed: (0, 0),
};

/// What changes with a folder: the files in it that are compared, by their names; none for one that can't be looked at.
#[derive(Drop)]
struct FolderStamp {
    files: Vec<Option<FileStamp>>,
}

/// What changes with a store: its files, the record of work on it, and the names in the folders of what is kept.
#[derive(Drop)]
pub struct StoreStamp {
    /// None for a folder that can't be listed.
    folders: Vec<Option<FolderStamp>>,
}

impl FolderStamp {
    /// How many bytes its files have.
    fn bytes(&self) -> u64 {
        let mut bytes = 0u64;
        for file in self.files.iter().flatten() {
            bytes = bytes.saturating_add(file.length);
        }
        bytes
    }

    /// Whether nothing is known to have changed.
    fn is_same(&self, other: &Self) -> bool {
        self.files.len() == other.files.len()
            && self.files.iter().zip(&other.files).all(|(one, two)| match (one, two) {
                (Some(one), Some(two)) => one == two,
                _ => true,
            })
    }
}

impl StoreStamp {
    /// How many bytes its files have.
    pub fn bytes(&self) -> u64 {
        let mut bytes = 0u64;
        for folder in self.folders.iter().flatten() {
            bytes = bytes.saturating_add(folder.bytes());
        }
        bytes
    }

    /// Whether nothing is known to have changed: what can't be looked at is told by whoever reads it.
    pub fn is_same(&self, other: &Self) -> bool {
        self.folders.len() == other.folders.len()
            && self.folders.iter().zip(&other.folders).all(|(one, two)| match (one, two) {
                (Some(one), Some(two)) => one.is_same(two),
                _ => true,
            })
    }
}

/// What changes with the file at a path, or that to which a link there leads; none if it can't be looked at.
fn file_stamp<R: Files>(rt: &R, path: &str) -> Option<FileStamp> {
    match fs::metadata(rt, path) {
        Ok(found) => Some(FileStamp {
            device: found.dev(),
            number: found.ino(),
            length: found.len(),
            changed: (found.mtime(), found.mtime_nsec()),
        }),
        Err(e) if e.kind() == ErrorKind::NotFound => Some(GONE),
        Err(_) => None,
    }
}

/// Whether the file of this name is compared.
fn is_compared(name: &str) -> bool {
    ENDS.iter().any(|end| name.ends_with(*end))
}

/// What changes with a folder; none if it can't be listed.
fn folder_stamp<R: Files + Alloc + Clone + Drop>(
    alloc: Global,
    rt: &R,
    folder: &str,
) -> Result<Option<FolderStamp>, AllocError> {
    let names = match names_in(alloc, rt, folder) {
        Ok(names) => names,
        Err(StoreFault::Device) => return Ok(None),
        Err(StoreFault::Memory) => return Err(AllocError),
    };
    let mut files = Vec::new(alloc);
    for name in &names {
        if is_compared(name.as_str()) {
            let path = format!(in alloc; "{folder}/{name}")?;
            files.push(file_stamp(rt, path.as_str()))?;
        }
    }
    Ok(Some(FolderStamp { files }))
}

/// What is compared of the store at a path, in its folder and in those of its sites, if they have folders of their own. The
/// folder `replaced` changes with each number that work takes in it.
pub fn stamp_of<R: Files + Alloc + Clone + Drop>(
    alloc: Global,
    rt: &R,
    path: &str,
    sites: &Option<SiteFolders>,
) -> Result<StoreStamp, AllocError> {
    let mut folders = Vec::new(alloc);
    folders.push(folder_stamp(alloc, rt, path)?)?;
    if let Some(sites) = sites {
        for site in 1..17u8 {
            if let Some(folder) = sites.folder(site) {
                folders.push(folder_stamp(alloc, rt, folder)?)?;
            }
        }
    }
    Ok(StoreStamp { folders })
}
