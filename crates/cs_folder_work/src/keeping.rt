//! Keeping what stands under names that are to change.
ghost use Rattle.std.specs.Prelude.{◌≡◌, IfOk, OnOk, true};
ghost use Rattle.cs_file_system.specs.Calls.{Always, Extends, IsSynced, WasCalled, make, same};
ghost use Rattle.cs_folder_work.specs.Keeping.{AreKept, Becomes, IsKeptAs, WasSeen};

use crate::record::Change;
use cs_file_system::{FileSystem, Standing, or_remove, refuses_links};
use cs_folders::file_in;
use cs_schema::FileName;
use std::alloc::Global;
use std::io;
use std::io::ErrorKind;

/// Makes the folder of this number in `all`, and brings its name to the disk: what is moved into a folder is lost with it.
/// Unless this work may have made it before, it is new: an error of the kind `AlreadyExists` if something has the name.
pub fn make_kept_folder<F: FileSystem>(
    files: &mut F,
    store: &str,
    all: &str,
    folder: &str,
    is_new: bool,
) -> io::Result<()>
    ensures { OnOk result (is_new ≡ true → Always (F.made files.new) (WasCalled (make folder.now))) }
{
    files.make_folder(all)?;
    if is_new {
        files.create_folder(folder)?;
    } else {
        files.make_folder(folder)?;
    }
    files.sync_folder(all)?;
    files.sync_folder(store)
}

/// Sees that what is kept under a name is what stands at a path: one file, or two of the same bytes. An error of the kind
/// `AlreadyExists` if it is another's.
fn require_same<F: FileSystem>(files: &mut F, path: &str, kept: &str) -> io::Result<()>
    ensures same { OnOk result (Always (F.made files.new) (WasCalled (same path.now kept.now))) }
    ensures more { OnOk result (Extends (F.made files.old) (F.made files.new)) }
{
    if files.is_same(path, kept)? {
        Ok(())
    } else {
        Err(io::Error::from(ErrorKind::AlreadyExists))
    }
}

/// Writes a copy of what stands at a path into a new file, and brings it to the disk.
fn fill_copy<F: FileSystem>(
    files: &mut F,
    path: &str,
    beside: &str,
    file: &mut F::File,
) -> io::Result<()>
    requires { F.is_at file.old beside.now }
    ensures synced { OnOk result (Always (F.made files.new) (IsSynced beside.now)) }
    ensures more { OnOk result (Extends (F.made files.old) (F.made files.new)) }
{
    files.write_copy(path, beside, file)?;
    files.sync(beside, file)
}

/// Makes a copy of what stands at a path, in the place of one that a run left which was stopped. After an error it is gone, if
/// it can be removed.
fn make_copy<F: FileSystem>(files: &mut F, path: &str, beside: &str) -> io::Result<()>
    ensures synced { OnOk result (Always (F.made files.new) (IsSynced beside.now)) }
    ensures more { OnOk result (Extends (F.made files.old) (F.made files.new)) }
{
    files.remove(beside)?;
    let mut file = files.create_private(beside)?;
    let filled = fill_copy(files, path, beside, &mut file);
    or_remove(files, beside, filled)
}

/// Gives a new copy of the regular file at a path the name under which it is kept.
fn name_copy<F: FileSystem>(files: &mut F, path: &str, beside: &str, kept: &str) -> io::Result<()>
    ensures { OnOk result (Extends (F.made files.old) (F.made files.new)) }
{
    make_copy(files, path, beside)?;
    files.rename(beside, kept)
}

/// Keeps a copy of the regular file at a path, unless something has the name under which it is kept.
fn copy_unless_kept<F: FileSystem>(
    files: &mut F,
    path: &str,
    beside: &str,
    kept: &str,
) -> io::Result<()>
    ensures { OnOk result (Extends (F.made files.old) (F.made files.new)) }
{
    match files.look(kept)? {
        Standing::Nothing => name_copy(files, path, beside, kept),
        Standing::File => Ok(()),
        Standing::Folder => Ok(()),
    }
}

/// Keeps a copy of the regular file at a path, unless something is kept there: no second name is to be had.
fn keep_copy<F: FileSystem>(files: &mut F, alloc: Global, path: &str, kept: &str) -> io::Result<()>
    ensures same { OnOk result (Always (F.made files.new) (WasCalled (same path.now kept.now))) }
    ensures more { OnOk result (Extends (F.made files.old) (F.made files.new)) }
{
    let beside = format!(in alloc; "{kept}.copying")?;
    copy_unless_kept(files, path, beside.as_str(), kept)?;
    require_same(files, path, kept)
}

/// Keeps the file at a path under a second name, or if that is not to be had, a copy of it. What has the second name already
/// has to be the same.
fn keep_file<F: FileSystem>(files: &mut F, alloc: Global, path: &str, kept: &str) -> io::Result<()>
    ensures kept { OnOk result (Always (F.made files.new) (IsKeptAs path.now kept.now)) }
    ensures more { OnOk result (Extends (F.made files.old) (F.made files.new)) }
{
    match files.link(path, kept) {
        Ok(()) => Ok(()),
        Err(e) if e.kind() == ErrorKind::AlreadyExists => require_same(files, path, kept),
        Err(e) if refuses_links(&e) => keep_copy(files, alloc, path, kept),
        Err(e) => Err(e),
    }
}

/// Keeps what stands at a path, if anything does: a folder is moved, anything else gets a second name. An error of the kind
/// `AlreadyExists` if something else has that.
fn keep_one<F: FileSystem>(
    files: &mut F,
    alloc: Global,
    path: &str,
    kept: &str,
) -> io::Result<Change>
    ensures became { IfOk result (λ change. Always (F.made files.new) (Becomes change path.now kept.now)) }
    ensures more { OnOk result (Extends (F.made files.old) (F.made files.new)) }
{
    match files.look(path)? {
        Standing::Folder => files.move_folder(path, kept)?,
        Standing::File => keep_file(files, alloc, path, kept)?,
        Standing::Nothing => return kept_before(files, kept),
    }
    Ok(Change::Replaces)
}

/// Whether what stood under a name, where nothing stands, was kept by a call that was stopped: a folder was moved.
fn kept_before<F: FileSystem>(files: &mut F, kept: &str) -> io::Result<Change>
    ensures seen { IfOk result (λ change. Always (F.made files.new) (WasSeen change kept.now)) }
    ensures more { OnOk result (Extends (F.made files.old) (F.made files.new)) }
{
    match files.look(kept)? {
        Standing::Nothing => Ok(Change::New),
        Standing::Folder => Ok(Change::Replaces),
        Standing::File => Ok(Change::Replaces),
    }
}

/// Keeps what stands in a store under these names, and then brings the names of what is kept to the disk, and those of the
/// store. What becomes of each, in their order.
pub fn keep_names<F: FileSystem>(
    files: &mut F,
    alloc: Global,
    store: &str,
    folder: &str,
    names: &[FileName],
) -> io::Result<Vec<Change>>
    ensures { IfOk result (λ changes. Always (F.made files.new) (AreKept store.now folder.now names.now changes.items)) }
{
    let mut changes = Vec::new(alloc);
    for name in names {
        let path = file_in(alloc, store, *name)?;
        let kept = file_in(alloc, folder, *name)?;
        let (path, kept) = (path.as_str(), kept.as_str());
        changes.push(keep_one(files, alloc, path, kept)?)?;
    }
    files.sync_folder(folder)?;
    files.sync_folder(store)?;
    Ok(changes)
}
