//! What a run left that began to make something new and was stopped.
ghost use Rattle.cs_file_system.specs.System.{system_locked, system_locked-prop};

use crate::new_store::Way;
use crate::paths::path_in;
use crate::reading::{read_bounded, unless_missing};
use cs_file_system::{
    FileSystem, NotedFile, StoreFiles, SystemFiles, is_held, lock_at, new_folder_beside,
    open_regular, open_to_lock,
};
use std::alloc::Global;
use std::io::ErrorKind;
use std::{fs, io};

/// The mark in the folder of a new store as long as it is made. It is locked by the run that makes the store.
pub const LOADING: &str = "LOADING";

/// What stands in the mark.
pub const LOADING_TEXT: &[u8] = b"pinepolo makes a store here\n";

/// The mark of something new that a run left which was stopped. This run has it locked.
#[derive(Drop)]
pub struct LeftMark {
    file: NotedFile,
    ghost is_locked: { system_locked file } by { system_locked-prop file },
}

impl LeftMark {
    /// Locks the mark at a path. An error of the kind `WouldBlock` if the run that made it is at work.
    pub fn lock<R: StoreFiles>(rt: &R, path: &str) -> io::Result<Self> {
        let file = open_to_lock(rt, path)?;
        lock_at(&mut SystemFiles(rt), path, &file)?;
        Ok(Self { file })
    }
}

/// Whether the bytes of a file are those of the mark of a new store, or their first: a run may have been stopped while it wrote
/// them.
fn is_mark(alloc: Global, file: &mut NotedFile) -> bool {
    match read_bounded(alloc, file, LOADING_TEXT.len() as u64) {
        Ok(bytes) => LOADING_TEXT.starts_with(bytes.as_slice()),
        Err(_) => false,
    }
}

/// What stands beside the path of a new store: what a run makes there that is at work or was stopped, or something that no run
/// makes.
fn way_of_folder<R: StoreFiles>(alloc: Global, rt: &R, partial: &str) -> io::Result<Way> {
    if !fs::symlink_metadata(rt, partial)?.is_dir() {
        return Ok(Way::Foreign);
    }
    let mark = path_in(alloc, partial, LOADING)?;
    let Some(mut file) = unless_missing(open_regular(rt, mark.as_str()))? else {
        return Ok(Way::Foreign);
    };
    if !is_mark(alloc, &mut file) {
        return Ok(Way::Foreign);
    }
    way_of_mark(&file)
}

/// Whether the run that made a mark is at work, or was stopped.
pub fn way_of_mark(mark: &NotedFile) -> io::Result<Way> {
    if is_held(mark)? {
        Ok(Way::Busy)
    } else {
        Ok(Way::Begun)
    }
}

/// What stands beside the path of a new store, if anything does.
pub fn way_beside<R: StoreFiles>(alloc: Global, rt: &R, partial: &str) -> io::Result<Way> {
    match way_of_folder(alloc, rt, partial) {
        Err(e) if e.kind() == ErrorKind::NotFound => Ok(Way::Free),
        Err(e) if e.kind() == ErrorKind::InvalidInput => Ok(Way::Foreign),
        way => way,
    }
}

/// Removes the folder of a new store that a run left which was stopped: it gets a name of this run's own first, and goes if its
/// mark is the one that is locked.
fn remove_marked<R: StoreFiles>(
    alloc: Global,
    rt: &R,
    partial: &str,
    mark: &LeftMark,
) -> io::Result<()> {
    let files = &mut SystemFiles(rt);
    let own = new_folder_beside(files, alloc, partial)?;
    files.move_left(partial, own.as_str())?;
    let moved = path_in(alloc, own.as_str(), LOADING)?;
    if !files.is_named(moved.as_str(), &mark.file)? {
        return Err(io::Error::from(ErrorKind::WouldBlock));
    }
    files.remove_tree(alloc, own.as_str())
}

/// Removes what a run left beside the path of a new store that was stopped. An error of the kind `WouldBlock` if that run is at
/// work.
pub fn remove_unfinished<R: StoreFiles>(alloc: Global, rt: &R, partial: &str) -> io::Result<()> {
    let mark = path_in(alloc, partial, LOADING)?;
    let mark = LeftMark::lock(rt, mark.as_str())?;
    remove_marked(alloc, rt, partial, &mark)
}
