//! Texts and pictures in files.
use crate::new_store::partial_path;
use crate::output::failed;
use crate::paths::no_memory;
use cs_file_system::{SystemFiles, put_new};
use cs_store::StoreFault;
use std::alloc::Global;
use std::fs;
use std::rt::Files;

/// The text at this path as a stream, or standard input where it is `-`.
pub fn open_text<R: Files>(rt: &R, path: &str) -> Result<R::File, StoreFault> {
    let path = if path == "-" { "/dev/stdin" } else { path };
    match fs::open(rt, path) {
        Ok(file) => Ok(file),
        Err(_) => Err(StoreFault::Device),
    }
}

/// The folder in which a path's last name stands.
fn folder_of(path: &str) -> &str {
    match path.rsplit_once('/') {
        Some(("", _)) => "/",
        Some((folder, _)) => folder,
        None => ".",
    }
}

/// Writes a new file, which gets its name when all of it is on the disk, by a call that refuses a name that is there.
pub fn write_new<R: Files>(
    alloc: Global,
    rt: &R,
    path: &str,
    bytes: &[u8],
) -> Result<(), StoreFault> {
    let beside = partial_path(alloc, path).map_err(no_memory)?;
    let files = &mut SystemFiles(rt);
    put_new(files, alloc, beside.as_str(), path, folder_of(path), bytes).map_err(failed)
}
