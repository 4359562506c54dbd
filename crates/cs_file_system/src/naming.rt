//! Names that nothing has yet.
ghost use Rattle.std.specs.Prelude.{◌≡◌, IfOk, OnOk, string_bytes};
ghost use Rattle.cs_file_system.specs.Calls.{Always, IsSynced};
ghost use Rattle.cs_file_system.specs.Naming.{IsPutNew, IsTaken};

use crate::beside::{Beside, new_beside, or_remove};
use crate::calls::FileSystem;
use crate::copying::refuses_links;
use crate::placing::fill;
use std::alloc::Global;
use std::io;
use std::io::ErrorKind;

/// Takes a name by an empty file, which a new file then replaces: no file system refuses that. After an error the empty file is
/// gone, if it can be removed.
fn take_by_file<F: FileSystem>(files: &mut F, beside: &str, path: &str) -> io::Result<()>
    requires { Always (F.made files.old) (IsSynced beside.now) }
    ensures { OnOk result (Always (F.made files.new) (IsTaken beside.now path.now)) }
{
    if beside == path {
        return Err(io::Error::from(ErrorKind::AlreadyExists));
    }
    let _empty = files.create(path)?;
    let named = files.rename(beside, path);
    or_remove(files, path, named)
}

/// Gives a new file, whose bytes are on the disk, a name by a call that refuses one that is there: an error of the kind
/// `AlreadyExists` if something has the name. That it has the name is not on the disk yet. After an error it does not have it, if
/// that can be taken back.
pub fn take_name<F: FileSystem>(files: &mut F, beside: &str, path: &str) -> io::Result<()>
    requires { Always (F.made files.old) (IsSynced beside.now) }
    ensures { OnOk result (Always (F.made files.new) (IsTaken beside.now path.now)) }
{
    match files.link_new(beside, path) {
        Ok(()) => {
            let removed = files.remove(beside);
            or_remove(files, path, removed)
        }
        Err(e) if refuses_links(&e) => take_by_file(files, beside, path),
        Err(e) => Err(e),
    }
}

/// Makes a new file of these bytes at a path, which gets its name when all of it is on the disk, and brings the name there. An
/// error of the kind `AlreadyExists` if something has the name. After an error nothing is left of it, if that can be removed.
pub fn put_new<F: FileSystem>(
    files: &mut F,
    alloc: Global,
    beside: &str,
    path: &str,
    folder: &str,
    bytes: &[u8],
) -> io::Result<()>
    ensures { OnOk result (Always (F.made files.new) (IsPutNew path.now folder.now)) }
{
    let Beside {
        path: beside,
        mut file,
    } = new_beside(files, alloc, beside)?;
    let beside = beside.as_str();
    let filled = fill(files, beside, &mut file, bytes);
    or_remove(files, beside, filled)?;
    let named = take_name(files, beside, path);
    or_remove(files, beside, named)?;
    let synced = files.sync_folder(folder);
    or_remove(files, path, synced)
}
