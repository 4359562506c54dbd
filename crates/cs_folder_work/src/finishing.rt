//! The end of work on a store.
use crate::digests::Digests;
use crate::journal::journal_with;
use crate::replaced::kept_record;
use crate::store_folders::StoreFolders;
use crate::syncing::folders_of;
use crate::taking::Taken;
use cs_file_system::{
    EndOfWork, FileSystem, StoreFiles, SystemFiles, end_recorded, end_work, unmark,
};
use cs_shelf::{JOURNAL, RESTORING};
use std::alloc::Global;
use std::rt::Files;
use std::time::Clock;
use std::{fs, io};

/// Ends work that is finished: its line joins the journal, and its record what it keeps. Whether that is on the disk.
pub fn finish<R: StoreFiles + Clock>(
    alloc: Global,
    rt: &R,
    folders: &StoreFolders,
    taken: &Taken,
    digests: &Digests,
) -> io::Result<bool> {
    let store = folders.store();
    if taken.record.changes.is_none() {
        return remove_record(alloc, rt, store);
    }
    end_changes(alloc, rt, folders, taken, digests)?;
    Ok(SystemFiles(rt).sync_folder(store).is_ok())
}

/// The paths of what changes if the work of this number ends.
fn end_of(alloc: Global, store: &str, number: u32, changed: Vec<String>) -> io::Result<EndOfWork> {
    Ok(EndOfWork {
        folder: String::from_str(alloc, store)?,
        changed,
        log: format!(in alloc; "{store}/{JOURNAL}")?,
        beside: format!(in alloc; "{store}/{JOURNAL}.restoring")?,
        mark: format!(in alloc; "{store}/{RESTORING}")?,
        kept: format!(in alloc; "{store}/replaced/{number}")?,
        kept_mark: kept_record(alloc, store, number)?,
    })
}

/// Ends work that changed the store. If its record is with what it keeps already, its line is in the journal; but a run that
/// was stopped may not have synced the record's name.
fn end_changes<R: StoreFiles + Clock>(
    alloc: Global,
    rt: &R,
    folders: &StoreFolders,
    taken: &Taken,
    digests: &Digests,
) -> io::Result<()> {
    let files = &mut SystemFiles(rt);
    let names = taken.record.names(alloc)?;
    let changed = folders_of(files, alloc, folders, names.as_slice())?;
    let work = end_of(alloc, folders.store(), taken.record.kept, changed)?;
    if fs::exists(rt, work.kept_mark.as_str())? {
        return end_recorded(files, &work);
    }
    let journal = journal_with(alloc, rt, folders, taken, digests)?;
    end_work(files, &work, journal.as_slice())
}

/// Removes the record of the store in this folder: its work is finished, or changed nothing. Whether that is on the disk: else
/// a crash may bring the record back.
pub fn remove_record<R: Files>(alloc: Global, rt: &R, store: &str) -> io::Result<bool> {
    let path = format!(in alloc; "{store}/{RESTORING}")?;
    let files = &mut SystemFiles(rt);
    unmark(files, store, path.as_str())?;
    Ok(files.sync_folder(store).is_ok())
}
