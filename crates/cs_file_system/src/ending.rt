//! The end of work on a folder: a log, the record beside what the work keeps, and no record of unfinished work.
ghost use Rattle.std.specs.Prelude.{OnOk, map, string_bytes};
ghost use Rattle.cs_file_system.specs.Calls.{AddsAll, Always, IsSettled, IsSynced};
ghost use Rattle.cs_file_system.specs.Ending.{IsFinished, IsRecorded, folders_synced, work_ended};

use crate::calls::FileSystem;
use crate::owner::SetOwner;
use crate::placing::put_owned;
use std::io;

/// The paths of what changes if work on a folder ends.
#[derive(Drop)]
pub struct EndOfWork {
    /// The folder.
    pub folder: String,
    /// The folders in which files changed, that one or others.
    pub changed: Vec<String>,
    /// The log, a file in the folder.
    pub log: String,
    /// Where a new log is made.
    pub beside: String,
    /// The record of the work, a file in the folder.
    pub mark: String,
    /// The folder that keeps what the work replaced.
    pub kept: String,
    /// The second name of the record, in the folder that keeps what the work replaced.
    pub kept_mark: String,
}

/// Puts a log in the place of the one that stands in a folder, whole or not at all, and brings its name to the disk.
fn put_log<F: FileSystem>(files: &mut F, work: &EndOfWork, text: &[u8]) -> io::Result<()>
where
    F::File: SetOwner,
    ensures logged { OnOk result (Always (F.made files.new) (IsSynced (string_bytes work.now.log))) }
    ensures settled { OnOk result (Always (F.made files.new) (IsSettled (string_bytes work.now.folder))) }
{
    let (folder, log) = (work.folder.as_str(), work.log.as_str());
    put_owned(files, folder, work.beside.as_str(), log, text)?;
    files.sync_folder(folder)
}

/// Puts the log in place that says what became of work, and then adds the record to what the work keeps.
fn record_work<F: FileSystem>(files: &mut F, work: &EndOfWork, log: &[u8]) -> io::Result<()>
where
    F::File: SetOwner,
    ensures { OnOk result (Always (F.made files.new) (IsRecorded work.now)) }
{
    put_log(files, work, log)?;
    let (folder, log) = (work.folder.as_str(), work.log.as_str());
    files.keep_mark(folder, log, work.mark.as_str(), work.kept_mark.as_str())
}

/// Brings the names in these folders to the disk, in their order.
fn sync_folders<F: FileSystem>(files: &mut F, folders: &[String]) -> io::Result<()>
    ensures { OnOk result (AddsAll (folders_synced (map string_bytes folders.now)) (F.made files.old) (F.made files.new)) }
{
    for folder in folders {
        files.sync_folder(folder.as_str())?;
    }
    Ok(())
}

/// Ends work of which the record is among what it keeps. That the name of its other one is gone is not on the disk yet.
pub fn end_recorded<F: FileSystem>(files: &mut F, work: &EndOfWork) -> io::Result<()>
    ensures { OnOk result (AddsAll (work_ended work.now) (F.made files.old) (F.made files.new)) }
{
    let (folder, kept) = (work.folder.as_str(), work.kept.as_str());
    sync_folders(files, work.changed.as_slice())?;
    files.sync_folder(kept)?;
    files.sync_folder(folder)?;
    files.finish_kept(folder, kept, work.mark.as_str())
}

/// Ends work: its log is put in place, its record joins what it keeps, and then the record of unfinished work goes, each once
/// what came before is on the disk. That the last name is gone is not there yet.
pub fn end_work<F: FileSystem>(files: &mut F, work: &EndOfWork, log: &[u8]) -> io::Result<()>
where
    F::File: SetOwner,
    ensures { OnOk result (Always (F.made files.new) (IsFinished work.now)) }
{
    record_work(files, work, log)?;
    end_recorded(files, work)
}
