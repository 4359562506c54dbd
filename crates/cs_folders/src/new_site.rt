//! The folder of a site of a new store, whose files get their names when the whole store is on the disk.
use crate::new_store::{check_written, is_there, partial_path, write_checked};
use crate::output::failed;
use crate::paths::{file_in, no_memory, path_in};
use cs_file_system::{FileSystem, NotedFile, StoreFiles, SystemFiles, begin_mark};
use cs_schema::FileName;
use cs_store::StoreFault;
use std::alloc::{AllocError, Global};
use std::rt::Files;

/// The copy of the catalog in the folder of a site, before it has its name: it is written first and named last. So a folder
/// that has it is of a store which is not whole, and one with a `catalog.toml` has all its files.
pub const BEGUN: &str = "catalog.toml.partial";

/// The folder of a site of a new store. Its files have `.partial` behind their names until all are there.
#[derive(Drop)]
pub struct NewSite {
    /// The path of the folder.
    pub path: String,
    /// The files that were written into it.
    pub names: Vec<FileName>,
    /// Its copy of the catalog, locked as long as the store is made.
    mark: NotedFile,
}

/// Makes the folder unless it is there, and writes its copy of the catalog, which is locked.
fn begin_folder<R: StoreFiles>(
    alloc: Global,
    rt: &R,
    path: &str,
    catalog: &[u8],
) -> Result<NotedFile, StoreFault> {
    let files = &mut SystemFiles(rt);
    if !is_there(rt, path)? {
        let parent = path_in(alloc, path, "..").map_err(no_memory)?;
        files.make_folder(path).map_err(failed)?;
        files.sync_folder(parent.as_str()).map_err(failed)?;
    }
    let begun = path_in(alloc, path, BEGUN).map_err(no_memory)?;
    let mark = begin_mark(files, begun.as_str(), catalog).map_err(failed)?;
    check_written(alloc, rt, begun.as_str(), catalog)?;
    files.sync_folder(path).map_err(failed)?;
    Ok(mark)
}

impl NewSite {
    /// Begins the folder at this path, which is made unless it is there, with its copy of the catalog.
    pub fn begin<R: StoreFiles>(
        alloc: Global,
        rt: &R,
        path: &str,
        catalog: &[u8],
    ) -> Result<Self, StoreFault> {
        let path = path.trim_end_matches('/');
        let mark = begin_folder(alloc, rt, path, catalog)?;
        Ok(Self {
            path: String::from_str(alloc, path).map_err(no_memory)?,
            names: Vec::new(alloc),
            mark,
        })
    }

    /// The path of a file of the folder, before it has its name.
    pub fn partial(&self, alloc: Global, name: FileName) -> Result<String, AllocError> {
        let path = file_in(alloc, self.path.as_str(), name)?;
        partial_path(alloc, path.as_str())
    }

    /// Writes a file, brings it to the disk, and reads it back. It has no name yet.
    pub fn put<R: Files>(
        &mut self,
        alloc: Global,
        rt: &R,
        name: FileName,
        bytes: &[u8],
    ) -> Result<(), StoreFault> {
        let beside = self.partial(alloc, name).map_err(no_memory)?;
        write_checked(alloc, rt, beside.as_str(), bytes)?;
        match self.names.push(name) {
            Ok(()) => Ok(()),
            Err(_) => Err(StoreFault::Memory),
        }
    }
}
