//! Whether there is work on a store, and a run is at it.
use crate::recording::read_record;
use crate::taking::failed;
use cs_file_system::{NotedFile, StoreFiles, is_held, is_named, open_unlinked};
use cs_shelf::{Pending, RESTORING, Untaken, WorkKind};
use std::alloc::{AllocError, Global};
use std::io;
use std::io::ErrorKind;

/// The file of a record that was opened; none if nothing is there. What is no regular file is no record.
pub fn opened(tried: io::Result<NotedFile>) -> Result<Option<NotedFile>, Untaken> {
    match tried {
        Ok(file) => Ok(Some(file)),
        Err(e) if e.kind() == ErrorKind::NotFound => Ok(None),
        Err(e) if e.kind() == ErrorKind::InvalidInput => Err(Untaken::Damaged),
        Err(e) => Err(failed(e)),
    }
}

/// How often a record is looked at that gets its next version meanwhile.
const LOOKS: u32 = 16;

/// The work that an open record tells of, and whether a run is at it; none if the record has no name any more.
fn pending_by<R: StoreFiles>(
    rt: &R,
    path: &str,
    file: &NotedFile,
    kind: WorkKind,
) -> Option<Pending> {
    match is_held(file) {
        Ok(true) => Some(Pending::AtWork(kind)),
        Ok(false) => match is_named(rt, path, file) {
            Ok(true) => Some(Pending::Stopped(kind)),
            Ok(false) => None,
            Err(_) => Some(Pending::Unknown(kind)),
        },
        Err(_) => Some(Pending::Unknown(kind)),
    }
}

/// The work of which the record stands at a path, if there is one, and whether a run is at it.
fn pending_at<R: StoreFiles>(
    alloc: Global,
    rt: &R,
    path: &str,
) -> Result<Option<Pending>, Untaken> {
    let mut last = WorkKind::Restore;
    for _ in 0..LOOKS {
        let Some(mut file) = opened(open_unlinked(rt, path))? else {
            return Ok(None);
        };
        let record = read_record(alloc, &mut file)?;
        last = record.work.kind();
        if let Some(pending) = pending_by(rt, path, &file, last) {
            return Ok(Some(pending));
        }
    }
    Ok(Some(Pending::AtWork(last)))
}

/// The work on the store in this folder that is not finished, if any, and whether a run is at it. If its record can't be read it
/// is a restore.
pub fn pending_work<R: StoreFiles>(
    alloc: Global,
    rt: &R,
    store: &str,
) -> Result<Option<Pending>, AllocError> {
    let path = format!(in alloc; "{store}/{RESTORING}")?;
    match pending_at(alloc, rt, path.as_str()) {
        Ok(pending) => Ok(pending),
        Err(Untaken::Memory) => Err(AllocError),
        Err(Untaken::Damaged) => Ok(Some(Pending::Stopped(WorkKind::Restore))),
        Err(_) => Ok(Some(Pending::Unknown(WorkKind::Restore))),
    }
}

/// Why a store can't be taken on which there is work.
fn untaken_by(pending: Pending) -> Untaken {
    match pending {
        Pending::AtWork(kind) => Untaken::AtWork(kind),
        Pending::Unknown(kind) => Untaken::Unknown(kind),
        Pending::Stopped(WorkKind::Restore) => Untaken::Unfinished,
        Pending::Stopped(WorkKind::Undo) => Untaken::UnfinishedUndo,
    }
}

/// Sees that there is no work on the store with the record at this path.
pub fn require_idle<R: StoreFiles>(alloc: Global, rt: &R, path: &str) -> Result<(), Untaken> {
    match pending_at(alloc, rt, path)? {
        Some(pending) => Err(untaken_by(pending)),
        None => Ok(()),
    }
}
