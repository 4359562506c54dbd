//! What earlier work on a store keeps in `replaced/N`.
use crate::files::read_regular;
use crate::record::{Change, Record};
use crate::recording::{RECORD_LIMIT, record_of};
use crate::sealing::is_long_and_damaged;
use crate::store_folders::StoreFolders;
use crate::taking::failed;
use cs_file_system::SystemFiles;
use cs_folders::FileLimits;
use cs_schema::FileName;
use cs_shelf::{Undoable, Untaken};
use cs_store::FileSet;
use std::alloc::Global;
use std::io::ErrorKind;
use std::rt::Files;
use std::{fs, io};

/// The name of the record in `replaced/N`, once the work is finished.
const KEPT_RECORD: &str = "RECORD";

/// Where the record of finished work stands.
pub fn kept_record(alloc: Global, store: &str, number: u32) -> io::Result<String> {
    Ok(format!(in alloc; "{store}/replaced/{number}/{KEPT_RECORD}")?)
}

/// The greatest number of what was kept in a folder, or 0.
fn last_number_in<R: Files + Alloc + Clone + Drop>(
    alloc: Global,
    rt: &R,
    folder: &str,
) -> io::Result<u32> {
    let path = format!(in alloc; "{folder}/replaced")?;
    let folder = match fs::read_dir(rt, path.as_str()) {
        Ok(folder) => folder,
        Err(e) if e.kind() == ErrorKind::NotFound => return Ok(0),
        Err(e) => return Err(e),
    };
    let mut last = 0;
    for entry in folder {
        match entry {
            Ok(entry) => {
                if let Ok(number) = entry.file_name().parse::<u32>() {
                    last = last.max(number);
                }
            }
            Err(e) if e.kind() == ErrorKind::InvalidFilename => {}
            Err(e) => return Err(e),
        }
    }
    Ok(last)
}

/// The greatest number of what was kept in any folder of a store that is there, or 0.
pub fn last_number<R: Files + Alloc + Clone + Drop>(
    alloc: Global,
    rt: &R,
    folders: &StoreFolders,
) -> io::Result<u32> {
    let mut last = 0;
    for folder in folders.all(&mut SystemFiles(rt), alloc)? {
        last = last.max(last_number_in(alloc, rt, folder)?);
    }
    Ok(last)
}

/// The greatest number of finished work, if there is any.
pub fn last_finished<R: Files + Alloc + Clone + Drop>(
    alloc: Global,
    rt: &R,
    store: &str,
) -> io::Result<Option<u32>> {
    let last = last_number_in(alloc, rt, store)?;
    for number in (1..=last).rev() {
        let path = kept_record(alloc, store, number)?;
        if fs::exists(rt, path.as_str())? {
            return Ok(Some(number));
        }
    }
    Ok(None)
}

/// The record of the work of this number.
fn read_kept_record<R: Files>(
    alloc: Global,
    rt: &R,
    store: &str,
    number: u32,
) -> Result<Record, Untaken> {
    let folder = match format!(in alloc; "{store}/replaced/{number}") {
        Ok(folder) => folder,
        Err(_) => return Err(Untaken::Memory),
    };
    if !fs::exists(rt, folder.as_str()).map_err(failed)? {
        return Err(Untaken::NoneKept(Some(number)));
    }
    let path = kept_record(alloc, store, number).map_err(failed)?;
    match read_regular(alloc, rt, path.as_str(), RECORD_LIMIT).map_err(failed)? {
        Some(bytes) => match record_of(alloc, bytes.as_slice()) {
            Ok(record) if record.kept == number && record.changes.is_some() => Ok(record),
            Ok(_) | Err(Untaken::Damaged) => Err(Untaken::Unrecorded(number)),
            Err(untaken) => Err(untaken),
        },
        None => Err(Untaken::Unrecorded(number)),
    }
}

/// The bytes of the file that is kept at this path, if it is a regular one that can be read and is worth to be held; an error
/// if nothing is there.
fn read_kept<R: Files>(
    alloc: Global,
    rt: &R,
    path: &str,
    limit: u64,
) -> io::Result<Option<Vec<u8>>> {
    fs::symlink_metadata(rt, path)?;
    if let Ok(true) = is_long_and_damaged(rt, path) {
        return Ok(None);
    }
    match read_regular(alloc, rt, path, limit) {
        Err(e) if e.kind() != ErrorKind::OutOfMemory => Ok(None),
        read => read,
    }
}

/// Adds a name to what an undo puts back, with what was read of what is kept of it.
fn add_back(
    alloc: Global,
    undoable: &mut Undoable,
    name: FileName,
    read: Option<Vec<u8>>,
) -> Result<(), Untaken> {
    let bytes = match read {
        Some(bytes) => bytes,
        None => match undoable.moved.push(name) {
            Ok(()) => Vec::new(alloc),
            Err(_) => return Err(Untaken::Memory),
        },
    };
    match undoable.back.put(name, bytes) {
        Ok(()) => Ok(()),
        Err(_) => Err(Untaken::Memory),
    }
}

/// What an undo of the work of this number puts back. All that it kept has to be there, but for what an undo that has begun
/// may have moved back.
pub fn read_replaced<R: Files>(
    alloc: Global,
    rt: &R,
    folders: &StoreFolders,
    number: u32,
    limits: FileLimits,
    has_begun: bool,
) -> Result<Undoable, Untaken> {
    let record = read_kept_record(alloc, rt, folders.store(), number)?;
    let Ok(back) = FileSet::new(alloc) else {
        return Err(Untaken::Memory);
    };
    let mut undoable = Undoable {
        number,
        back,
        names: Vec::new(alloc),
        moved: Vec::new(alloc),
    };
    let Some(changes) = &record.changes else {
        return Err(Untaken::Unrecorded(number));
    };
    for (name, change) in changes {
        if undoable.names.push(*name).is_err() {
            return Err(Untaken::Memory);
        }
        let Ok(folder) = folders.reach(&mut SystemFiles(rt), *name) else {
            return Err(Untaken::Away(*name));
        };
        if *change == Change::New {
            continue;
        }
        let Ok(path) = format!(in alloc; "{folder}/replaced/{number}/{name}") else {
            return Err(Untaken::Memory);
        };
        match read_kept(alloc, rt, path.as_str(), limits.limit_of(*name)) {
            Ok(read) => add_back(alloc, &mut undoable, *name, read)?,
            Err(e) if e.kind() != ErrorKind::NotFound => return Err(failed(e)),
            Err(_) if has_begun => add_back(alloc, &mut undoable, *name, None)?,
            Err(_) => return Err(Untaken::Incomplete(number, *name)),
        }
    }
    Ok(undoable)
}
