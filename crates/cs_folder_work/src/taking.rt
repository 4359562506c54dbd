//! Taking a store for a restore or an undo, so that no second one begins beside it.
ghost use Rattle.cs_file_system.specs.System.{system_locked, system_locked-prop};

use crate::finishing::remove_record;
use crate::pending::{opened, require_idle};
use crate::record::{Change, Record};
use crate::recording::read_record;
use crate::replaced::last_number;
use crate::store_folders::StoreFolders;
use cs_file_system::{
    NotedFile, StoreFiles, SystemFiles, begin_record, lock_at, open_to_lock, rewrite_record, sweep,
};
use cs_schema::FileName;
use cs_shelf::{RESTORING, Untaken, Work};
use std::alloc::Global;
use std::collections::BTreeMap;
use std::io::ErrorKind;
use std::rt::Files;
use std::{fs, io};

/// A store that is taken: while this lives, nothing else can take it.
#[derive(Drop)]
pub struct Taken {
    pub record: Record,
    /// The names under which an undo moves back what is kept; none of a restore.
    pub moves: Vec<FileName>,
    /// Whether an earlier run may have kept, moved or replaced anything.
    pub has_changed: bool,
    /// The file of the record.
    lock: NotedFile,
    ghost is_locked: { system_locked lock } by { system_locked-prop lock },
}

impl Taken {
    /// This store, with the names under which an undo moves back what is kept.
    pub fn with_moves(self, moves: Vec<FileName>) -> Self {
        let Self {
            record,
            moves: _none,
            has_changed,
            lock,
        } = self;
        Self {
            record,
            moves,
            has_changed,
            lock,
        }
    }

    /// Writes the record anew, in the place of the one that stands: whole or not at all.
    fn write_record<R: StoreFiles>(
        &mut self,
        alloc: Global,
        rt: &R,
        store: &str,
    ) -> io::Result<()> {
        let path = format!(in alloc; "{store}/{RESTORING}")?;
        let text = self.record.text(alloc)?;
        rewrite_record(
            &mut SystemFiles(rt),
            alloc,
            store,
            path.as_str(),
            text.as_bytes(),
            &mut self.lock,
        )
    }

    /// Writes down what becomes of each name.
    pub fn note<R: StoreFiles>(
        &mut self,
        alloc: Global,
        rt: &R,
        store: &str,
        changes: BTreeMap<FileName, Change>,
    ) -> io::Result<()> {
        self.record.changes = Some(changes);
        self.write_record(alloc, rt, store)
    }

    /// Takes the next number of `replaced/N` and writes it down. The store is locked, so that no other work takes it too.
    fn take_number<R: StoreFiles + Alloc + Clone + Drop>(
        &mut self,
        alloc: Global,
        rt: &R,
        folders: &StoreFolders,
    ) -> io::Result<()> {
        match last_number(alloc, rt, folders)?.checked_add(1) {
            Some(kept) => self.record.kept = kept,
            None => return Err(io::Error::from(ErrorKind::AlreadyExists)),
        }
        self.write_record(alloc, rt, folders.store())
    }
}

/// The failure of a call.
pub fn failed(error: io::Error) -> Untaken {
    match error.kind() {
        ErrorKind::OutOfMemory => Untaken::Memory,
        _ => Untaken::Device,
    }
}

/// Takes the store in these folders for this work, unless other work is unfinished, and writes down whether a restore's loss
/// is accepted. The record is there whole or not at all, and locked as long as it is taken.
pub fn take<R: StoreFiles + Alloc + Clone + Drop>(
    alloc: Global,
    rt: &R,
    folders: &StoreFolders,
    work: Work,
    accepts_loss: bool,
) -> Result<Taken, Untaken> {
    let store = folders.store();
    let path = match format!(in alloc; "{store}/{RESTORING}") {
        Ok(path) => path,
        Err(_) => return Err(Untaken::Memory),
    };
    require_idle(alloc, rt, path.as_str())?;
    let record = Record {
        work,
        accepts_loss,
        kept: 0,
        changes: None,
    };
    let Some(mut taken) = write_new(alloc, rt, store, path.as_str(), record).map_err(failed)? else {
        require_idle(alloc, rt, path.as_str())?;
        // the other run has ended meanwhile
        return Err(Untaken::AtWork(work.kind()));
    };
    match taken.take_number(alloc, rt, folders) {
        Ok(()) => Ok(taken),
        Err(e) => {
            let _removed = remove_record(alloc, rt, store).is_ok();
            Err(failed(e))
        }
    }
}

/// Writes the record of new work, locked; none if another program has taken the folder meanwhile.
fn write_new<R: StoreFiles>(
    alloc: Global,
    rt: &R,
    store: &str,
    path: &str,
    record: Record,
) -> io::Result<Option<Taken>> {
    let text = record.text(alloc)?;
    let files = &mut SystemFiles(rt);
    let Some(lock) = begin_record(files, alloc, store, path, text.as_bytes())? else {
        return Ok(None);
    };
    let _swept = sweep(files, alloc, path).is_ok();
    Ok(Some(Taken {
        record,
        moves: Vec::new(alloc),
        has_changed: false,
        lock,
    }))
}

/// The first name whose folder is not the one in which this work was begun, or is away: what the work replaces is not kept
/// there.
fn moved_name<R: Files>(
    alloc: Global,
    rt: &R,
    folders: &StoreFolders,
    record: &Record,
) -> io::Result<Option<FileName>> {
    for name in record.names(alloc)? {
        if folders.is_in_store(name) {
            continue;
        }
        let Ok(folder) = folders.reach(&mut SystemFiles(rt), name) else {
            return Ok(Some(name));
        };
        if !has_kept_folder(alloc, rt, folder, record.kept)? {
            return Ok(Some(name));
        }
    }
    Ok(None)
}

/// Locks the record at a path, to go on with the work that it tells of.
fn lock_record<R: StoreFiles>(alloc: Global, rt: &R, path: &str) -> Result<Taken, Untaken> {
    let Some(mut file) = opened(open_to_lock(rt, path))? else {
        return Err(Untaken::Finished);
    };
    let record = read_record(alloc, &mut file)?;
    match lock_at(&mut SystemFiles(rt), path, &file) {
        Ok(()) => Ok(Taken {
            record,
            moves: Vec::new(alloc),
            has_changed: false,
            lock: file,
        }),
        Err(e) if e.kind() == ErrorKind::WouldBlock => Err(Untaken::AtWork(record.work.kind())),
        Err(e) if e.kind() == ErrorKind::OutOfMemory => Err(Untaken::Memory),
        Err(_) => Err(Untaken::Unknown(record.work.kind())),
    }
}

/// Takes the store in these folders to go on with its unfinished restore or undo. Work that was stopped before it had a number
/// gets one.
pub fn resume<R: StoreFiles + Alloc + Clone + Drop>(
    alloc: Global,
    rt: &R,
    folders: &StoreFolders,
) -> Result<Taken, Untaken> {
    let store = folders.store();
    let path = match format!(in alloc; "{store}/{RESTORING}") {
        Ok(path) => path,
        Err(_) => return Err(Untaken::Memory),
    };
    let mut taken = lock_record(alloc, rt, path.as_str())?;
    if taken.record.kept == 0 {
        taken.take_number(alloc, rt, folders).map_err(failed)?;
    }
    if let Some(name) = moved_name(alloc, rt, folders, &taken.record).map_err(failed)? {
        return Err(Untaken::Away(name));
    }
    taken.has_changed = has_kept_folder(alloc, rt, store, taken.record.kept).map_err(failed)?;
    let _swept = sweep(&mut SystemFiles(rt), alloc, path.as_str()).is_ok();
    Ok(taken)
}

/// Whether the folder is there that keeps what is replaced: it is made before anything is kept.
fn has_kept_folder<R: Files>(alloc: Global, rt: &R, store: &str, number: u32) -> io::Result<bool> {
    let folder = format!(in alloc; "{store}/replaced/{number}")?;
    fs::exists(rt, folder.as_str())
}
