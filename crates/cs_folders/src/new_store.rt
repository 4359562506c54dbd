//! A new store in one folder, which gets its name when all of it is on the disk.
use crate::naming::name_store;
use crate::new_site::NewSite;
use crate::output::failed;
use crate::paths::{file_in, no_memory, path_in};
use crate::reading::read_file;
use crate::unfinished::{LOADING, LOADING_TEXT, remove_unfinished, way_beside};
use cs_file_system::{
    FileSystem, NotedFile, StoreFiles, SystemFiles, begin_mark, new_folder_beside, write_synced,
};
use cs_schema::FileName;
use cs_store::StoreFault;
use std::alloc::{AllocError, Global};
use std::io::ErrorKind;
use std::rt::Files;
use std::{fs, io};

/// What stands where something new is to be made.
#[derive(Debug, Clone, Copy, PartialEq, Eq)]
pub enum Way {
    /// Nothing.
    Free,
    /// Something has the name already.
    Taken,
    /// What a run began under the name and did not end.
    Begun,
    /// What a run makes under the name that is at work.
    Busy,
    /// Something that no run makes, where one would begin it.
    Foreign,
}

/// The path under which something new is made, until it gets its name.
pub fn partial_path(alloc: Global, path: &str) -> Result<String, AllocError> {
    let path = path.trim_end_matches('/');
    format!(in alloc; "{path}.partial")
}

/// Writes a file, brings it to the disk, and reads it back: it must have the same bytes.
pub(crate) fn write_checked<R: Files>(
    alloc: Global,
    rt: &R,
    path: &str,
    bytes: &[u8],
) -> Result<(), StoreFault> {
    write_synced(&mut SystemFiles(rt), path, bytes).map_err(failed)?;
    check_written(alloc, rt, path, bytes)
}

/// Reads a file back that was written: it must have the same bytes.
pub(crate) fn check_written<R: Files>(
    alloc: Global,
    rt: &R,
    path: &str,
    bytes: &[u8],
) -> Result<(), StoreFault> {
    // what is longer than was written is none of it
    let limit = (bytes.len() as u64).min(u64::MAX / 2);
    match read_file(alloc, rt, path, limit) {
        Ok(Some(found)) if found.as_slice() == bytes => Ok(()),
        Err(StoreFault::Memory) => Err(StoreFault::Memory),
        _ => Err(StoreFault::Device),
    }
}

/// Whether something is at this path, be it a link that leads nowhere.
pub(crate) fn is_there<R: Files>(rt: &R, path: &str) -> Result<bool, StoreFault> {
    match fs::symlink_metadata(rt, path) {
        Ok(_) => Ok(true),
        Err(e) if e.kind() == ErrorKind::NotFound => Ok(false),
        Err(_) => Err(StoreFault::Device),
    }
}

/// What stands where something new is to be made. Nothing is changed.
pub fn way_to<R: StoreFiles>(alloc: Global, rt: &R, path: &str) -> Result<Way, StoreFault> {
    let name = path.trim_end_matches('/');
    if name.is_empty() || is_there(rt, name)? {
        return Ok(Way::Taken);
    }
    let partial = partial_path(alloc, path).map_err(no_memory)?;
    match way_beside(alloc, rt, partial.as_str()) {
        Ok(way) => Ok(way),
        Err(error) => Err(failed(error)),
    }
}

/// A new store that is made beside its path.
#[derive(Drop)]
pub struct NewStoreFolder<R> {
    alloc: Global,
    rt: R,
    path: String,
    partial: String,
    catalog: Vec<u8>,
    /// The mark in the folder, locked as long as the store is made.
    mark: NotedFile,
}

/// Makes a folder with the mark of a new store, which is locked, and gives it a name that nothing has.
fn name_begun<R: StoreFiles>(
    alloc: Global,
    rt: &R,
    own: &str,
    partial: &str,
) -> io::Result<NotedFile> {
    let files = &mut SystemFiles(rt);
    let mark = path_in(alloc, own, LOADING)?;
    let mark = begin_mark(files, mark.as_str(), LOADING_TEXT)?;
    if let Ok(true) = fs::exists(rt, partial) {
        return Err(io::Error::from(ErrorKind::AlreadyExists));
    }
    files.sync_folder(own)?;
    // one that another run named meanwhile has its mark, and is not replaced
    files.rename_folder(own, partial)?;
    Ok(mark)
}

/// Makes the folder of a new store, which has its mark when it gets the name `partial`; if `replaces`, in the place of one that
/// a run left which was stopped. An error of the kind `AlreadyExists` if the store is there.
fn begin<R: StoreFiles>(
    alloc: Global,
    rt: &R,
    path: &str,
    partial: &str,
    replaces: bool,
) -> io::Result<NotedFile> {
    let files = &mut SystemFiles(rt);
    if replaces && fs::exists(rt, partial)? {
        remove_unfinished(alloc, rt, partial)?;
    }
    let own = new_folder_beside(files, alloc, partial)?;
    let begun = name_begun(alloc, rt, own.as_str(), partial);
    let left = match &begun {
        Ok(_) => partial,
        Err(_) => own.as_str(),
    };
    let is_taken = fs::exists(rt, path).unwrap_or(false);
    if is_taken || begun.is_err() {
        let _removed = files.remove_tree(alloc, left).is_ok();
    }
    if is_taken {
        return Err(io::Error::from(ErrorKind::AlreadyExists));
    }
    begun
}

impl<R: StoreFiles + Drop> NewStoreFolder<R> {
    /// Makes the folder beside the path of the store, if `replaces` in the place of one that a run left which was stopped; its
    /// catalog is written last.
    pub fn make(
        alloc: Global,
        rt: R,
        path: &str,
        catalog: &[u8],
        replaces: bool,
    ) -> Result<Self, StoreFault> {
        let mut bytes = Vec::new(alloc);
        bytes.extend_from_slice(catalog).map_err(no_memory)?;
        let partial = partial_path(alloc, path).map_err(no_memory)?;
        let path = String::from_str(alloc, path.trim_end_matches('/')).map_err(no_memory)?;
        let begun = begin(alloc, &rt, path.as_str(), partial.as_str(), replaces);
        let mark = begun.map_err(failed)?;
        Ok(Self {
            alloc,
            rt,
            path,
            partial,
            catalog: bytes,
            mark,
        })
    }
}

impl<R: Files> NewStoreFolder<R> {
    /// Writes a file into the folder, brings it to the disk, and reads it back.
    pub fn put(&self, name: FileName, bytes: &[u8]) -> Result<(), StoreFault> {
        let path = file_in(self.alloc, self.partial.as_str(), name).map_err(no_memory)?;
        write_checked(self.alloc, &self.rt, path.as_str(), bytes)
    }

    /// Writes the catalog, and then gives the store its name: last of all, after the files of these sites, if there are any,
    /// and the copies of the catalog there. `named` is the number of folders of sites in which all files have their names, also
    /// after an error.
    pub fn finish(&self, sites: &[NewSite], named: &mut usize) -> Result<(), StoreFault> {
        let partial = self.partial.as_str();
        let catalog = path_in(self.alloc, partial, "catalog.toml").map_err(no_memory)?;
        write_checked(
            self.alloc,
            &self.rt,
            catalog.as_str(),
            self.catalog.as_slice(),
        )?;
        let files = &mut SystemFiles(&self.rt);
        let path = self.path.as_str();
        name_store(files, self.alloc, sites, named, partial, path).map_err(failed)?;
        self.remove_mark();
        Ok(())
    }

    /// Removes the mark from the store, which has its name. That changes nothing of the store: one that a crash brings back, or
    /// that can't be removed, is read by nobody.
    fn remove_mark(&self) {
        let files = &mut SystemFiles(&self.rt);
        if let Ok(mark) = path_in(self.alloc, self.path.as_str(), LOADING) {
            let _removed = files.remove(mark.as_str()).is_ok();
            let _synced = files.sync_folder(self.path.as_str()).is_ok();
        }
    }
}
