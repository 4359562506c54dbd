//! Records of work on a folder. Each is written beside its name, and gets that once it is on the disk and locked.
ghost use Rattle.std.specs.Prelude.{IfOk, IfSome, IsTrue, OnOk, string_bytes};
ghost use Rattle.cs_file_system.specs.Calls.{Always, IsSynced};
ghost use Rattle.cs_file_system.specs.Recording.{IsBegun, IsRewritten};

use crate::beside::{BESIDE_LIMIT, Beside, new_beside, or_remove};
use crate::calls::FileSystem;
use crate::locking::TryLock;
use crate::placing::fill;
use std::alloc::Global;
use std::io;
use std::io::ErrorKind;

/// Writes a new file, brings it to the disk, and locks it.
fn fill_locked<F: FileSystem>(
    files: &mut F,
    path: &str,
    file: &mut F::File,
    bytes: &[u8],
) -> io::Result<()>
where
    F::File: TryLock,
    requires { F.is_at file.old path.now }
    ensures synced { OnOk result (Always (F.made files.new) (IsSynced path.now)) }
    ensures locked { OnOk result (F.File.is_locked file.new) }
{
    fill(files, path, file, bytes)?;
    file.take_lock()
}

/// Writes a record beside its name, brings it to the disk, and locks it. After an error nothing is left of it, if that can be
/// removed.
fn write_beside<F: FileSystem>(
    files: &mut F,
    alloc: Global,
    record: &str,
    bytes: &[u8],
) -> io::Result<Beside<F::File>>
where
    F::File: TryLock,
    ensures synced { IfOk result (λ beside. Always (F.made files.new) (IsSynced (string_bytes beside.path))) }
    ensures locked { IfOk result (λ beside. F.File.is_locked beside.file) }
{
    let Beside { path, mut file } = new_beside(files, alloc, record)?;
    let filled = fill_locked(files, path.as_str(), &mut file, bytes);
    or_remove(files, path.as_str(), filled)?;
    Ok(Beside { path, file })
}

/// Locks an open file, which stands at a path. An error of the kind `WouldBlock` if another program has it locked, or has taken
/// it away meanwhile.
pub fn lock_at<F: FileSystem>(files: &mut F, path: &str, file: &F::File) -> io::Result<()>
where
    F::File: TryLock,
    ensures { OnOk result (F.File.is_locked file.now) }
{
    file.take_lock()?;
    if files.is_named(path, file)? {
        Ok(())
    } else {
        Err(io::Error::from(ErrorKind::WouldBlock))
    }
}

/// Makes the mark that this program makes something new, a file of these bytes that is locked and on the disk. An error of the
/// kind `AlreadyExists` if something has the name.
pub fn begin_mark<F: FileSystem>(files: &mut F, path: &str, bytes: &[u8]) -> io::Result<F::File>
where
    F::File: TryLock,
    ensures { IfOk result (λ mark. F.File.is_locked mark) }
{
    let mut mark = files.create(path)?;
    // unless it is locked it may be another program's to remove
    lock_at(files, path, &mark)?;
    let filled = fill(files, path, &mut mark, bytes);
    or_remove(files, path, filled)?;
    lock_at(files, path, &mark)?;
    Ok(mark)
}

/// Gives a record its name, which is brought to the disk; whether it has it. Not if something has the name already, or the
/// record is gone.
fn name_record<F: FileSystem>(
    files: &mut F,
    folder: &str,
    beside: &str,
    path: &str,
) -> io::Result<bool>
    requires { Always (F.made files.old) (IsSynced beside.now) }
    ensures { IfOk result (λ named. IsTrue named → Always (F.made files.new) (IsBegun folder.now path.now)) }
{
    match files.link_new(beside, path) {
        Ok(()) => {}
        Err(e) if e.kind() == ErrorKind::AlreadyExists || e.kind() == ErrorKind::NotFound => {
            return Ok(false);
        }
        Err(e) => return Err(e),
    }
    match files.sync_folder(folder) {
        Ok(()) => Ok(true),
        Err(e) => {
            files.remove(path)?;
            Err(e)
        }
    }
}

/// Writes the record of new work on a folder under its name, locked and on the disk. None if another program has begun work
/// meanwhile, which may have swept the record away. Unless it has its name nothing is left of it, if that can be removed.
///
/// The record is there whole or not at all.
pub fn begin_record<F: FileSystem>(
    files: &mut F,
    alloc: Global,
    folder: &str,
    path: &str,
    bytes: &[u8],
) -> io::Result<Option<F::File>>
where
    F::File: TryLock,
    ensures begun { IfOk result (λ begun. IfSome begun (λ file. Always (F.made files.new) (IsBegun folder.now path.now))) }
    ensures locked { IfOk result (λ begun. IfSome begun (λ file. F.File.is_locked file)) }
{
    let Beside { path: beside, file } = write_beside(files, alloc, path, bytes)?;
    match name_record(files, folder, beside.as_str(), path) {
        Ok(true) => Ok(Some(file)),
        Ok(false) => {
            files.remove(beside.as_str())?;
            Ok(None)
        }
        Err(e) => {
            let _removed = files.remove(beside.as_str()).is_ok();
            Err(e)
        }
    }
}

/// Writes a record anew, in the place of the one that has the name, whole or not at all. `lock` is the locked file of the one
/// that has the name, also after an error.
pub fn rewrite_record<F: FileSystem>(
    files: &mut F,
    alloc: Global,
    folder: &str,
    path: &str,
    bytes: &[u8],
    lock: &mut F::File,
) -> io::Result<()>
where
    F::File: TryLock,
    requires { F.File.is_locked lock.old }
    ensures rewritten { OnOk result (Always (F.made files.new) (IsRewritten folder.now path.now)) }
    ensures locked { F.File.is_locked lock.new }
{
    let Beside { path: beside, file } = write_beside(files, alloc, path, bytes)?;
    let named = files.rename(beside.as_str(), path);
    or_remove(files, beside.as_str(), named)?;
    *lock = file;
    files.sync_folder(folder)
}

/// Removes what programs that were stopped left beside a record.
pub fn sweep<F: FileSystem>(files: &mut F, alloc: Global, record: &str) -> io::Result<()> {
    for number in 1..=BESIDE_LIMIT {
        let path = format!(in alloc; "{record}.{number}")?;
        files.remove(path.as_str())?;
    }
    Ok(())
}
