//! New files and folders, which get their names once they are on the disk.
ghost use Rattle.std.specs.Prelude.{OnOk};
ghost use Rattle.cs_file_system.specs.Calls.{AddsAll, Always, IsSynced};
ghost use Rattle.cs_file_system.specs.Placing.{IsMarked, IsPut, IsUnmarked, folder_put};

use crate::beside::or_remove;
use crate::calls::FileSystem;
use crate::owner::SetOwner;
use std::io;

/// Writes bytes into a new file, and brings them to the disk.
pub fn fill<F: FileSystem>(
    files: &mut F,
    path: &str,
    file: &mut F::File,
    bytes: &[u8],
) -> io::Result<()>
    requires { F.is_at file.old path.now }
    ensures file { F.is_at file.new path.now }
    ensures synced { OnOk result (Always (F.made files.new) (IsSynced path.now)) }
{
    files.write(path, file, bytes)?;
    files.sync(path, file)
}

/// Makes a new file of these bytes, and brings them to the disk. An error of the kind `AlreadyExists` if something has the
/// name. After another error the file is gone, if it can be removed.
pub fn write_synced<F: FileSystem>(files: &mut F, path: &str, bytes: &[u8]) -> io::Result<()>
    ensures { OnOk result (Always (F.made files.new) (IsSynced path.now)) }
{
    let mut file = files.create(path)?;
    let filled = fill(files, path, &mut file, bytes);
    or_remove(files, path, filled)
}

/// Writes bytes into a new file, gives it the owner and the mode of what stands at a path, or if that is no regular file, of
/// the folder, and brings it to the disk.
fn fill_owned<F: FileSystem>(
    files: &mut F,
    folder: &str,
    beside: &str,
    path: &str,
    file: &mut F::File,
    bytes: &[u8],
) -> io::Result<()>
where
    F::File: SetOwner,
    requires { F.is_at file.old beside.now }
    ensures { OnOk result (Always (F.made files.new) (IsSynced beside.now)) }
{
    let owner = files.owner_of(folder, path)?;
    file.set_owner(owner)?;
    fill(files, beside, file, bytes)
}

/// Makes a new file of these bytes beside a path, in the place of one that a run left which was stopped, with the owner and the
/// mode of what stands at the path, or if that is no regular file, of the folder. It is brought to the disk; until it has its
/// owner nobody else may read it. After an error it is gone, if it can be removed.
pub fn write_owned<F: FileSystem>(
    files: &mut F,
    folder: &str,
    beside: &str,
    path: &str,
    bytes: &[u8],
) -> io::Result<()>
where
    F::File: SetOwner,
    ensures { OnOk result (Always (F.made files.new) (IsSynced beside.now)) }
{
    files.remove(beside)?;
    let mut file = files.create_private(beside)?;
    let filled = fill_owned(files, folder, beside, path, &mut file, bytes);
    or_remove(files, beside, filled)
}

/// Puts a file of these bytes in place, with the owner and the mode of what stands there, or if that is no regular file, of the
/// folder: it is made beside its path, brought to the disk, and then takes the place of what stands there. That it has the name
/// is not on the disk yet.
pub fn put_owned<F: FileSystem>(
    files: &mut F,
    folder: &str,
    beside: &str,
    path: &str,
    bytes: &[u8],
) -> io::Result<()>
where
    F::File: SetOwner,
    ensures { OnOk result (Always (F.made files.new) (IsPut beside.now path.now)) }
{
    write_owned(files, folder, beside, path, bytes)?;
    let named = files.rename(beside, path);
    or_remove(files, beside, named)
}

/// Gives a new folder its name, once the names in it are on the disk, and brings that name there too.
pub fn put_folder<F: FileSystem>(
    files: &mut F,
    beside: &str,
    path: &str,
    parent: &str,
) -> io::Result<()>
    ensures { OnOk result (AddsAll (folder_put beside.now path.now parent.now) (F.made files.old) (F.made files.new)) }
{
    files.sync_folder(beside)?;
    files.rename_folder(beside, path)?;
    files.sync_folder(parent)
}

/// Marks a new folder as whole, once the names in it are on the disk, and brings the mark's name and the folder's there too.
pub fn mark<F: FileSystem>(
    files: &mut F,
    folder: &str,
    parent: &str,
    path: &str,
    bytes: &[u8],
) -> io::Result<()>
    ensures { OnOk result (Always (F.made files.new) (IsMarked folder.now parent.now path.now)) }
{
    files.sync_folder(folder)?;
    let mut written = files.create_mark(folder, path)?;
    files.write(path, &mut written, bytes)?;
    files.sync(path, &mut written)?;
    files.sync_folder(folder)?;
    files.sync_folder(parent)
}

/// Removes the mark of unfinished work in the folder `work`, once the names in it are on the disk. That it is gone is not yet.
pub fn unmark<F: FileSystem>(files: &mut F, work: &str, path: &str) -> io::Result<()>
    ensures { OnOk result (Always (F.made files.new) (IsUnmarked work.now path.now)) }
{
    files.sync_folder(work)?;
    files.finish(work, path)
}
